//! The definitions on a worked run. The law is the contract of a function that does nothing.
ghost use Rattle.std.specs.Prelude.{◌≡◌, [], ◌∷◌, Some, Ok};
ghost use Rattle.cq_laws.specs.Terms.{ideal_run, empty_ideal, first_come_all, IsInputBest, empty_fabric, list_arrived, FabricRun, gone_in, transfers_of_run, figures_of, from_input2, for_output1, three, three_empty, three_slots, worked_figures, worked_records, worked_transfers};

/// Three inputs have a cell for one output, and one of them gets a cell for another output. The records that
/// were worked out by hand are the run with input-best matchings; the ideal switch sends what they say, and
/// their transfers and figures are those that were worked out too.
pub fn worked_run()
    ensures run { FabricRun IsInputBest first_come_all 0 three_slots (empty_fabric 3 three_empty) worked_records
        (empty_fabric 3 three_empty) }
    ensures sends { ideal_run first_come_all 0 three_slots (empty_ideal 3 three_empty)
        ≡ Ok (record { gone = gone_in worked_records; after = empty_ideal 3 three_empty }) }
    ensures goes_ahead { list_arrived (three [] [] (from_input2 ∷ []) [] [] []) (Some for_output1) (from_input2 ∷ [])
        ≡ for_output1 ∷ from_input2 ∷ [] }
    ensures transfers { transfers_of_run worked_records ≡ worked_transfers }
    ensures figures { figures_of 3 worked_records ≡ worked_figures }
{}
