//! What holds of what arrives, and of runs over it, whatever a fabric is made of. Each law is the contract of a
//! function that does nothing.
ghost use Rattle.std.specs.Prelude.{◌≡◌, ◌<◌, ℕ, List, Ok, length};
ghost use Rattle.cq_simulate.specs.Terms.{Arrival, traffic_of, arrivals, IsTraffic, NoLimits, AreOfPackets, cells_at, LimitedRecord, slots_in, figures_of, Captured, AreTables, IsSetup, classes_of, ports_of, Tables, EachPacketOnce, EmulatesIdeal, IsFabricRun, departures_in_run, refused_in_run, CanBeTakenUp, Departure, HaveLeftOf, LeaveInOrder, IsResumed, Kept, Taken, t0_of, ideal_departures, schedule_of, switch_of, Scheduled, IsScheduleFor, CanGoOn, machines_of, by_port, is_from, is_to};

/// The fabric of the tables' ranks and limits admits, refuses and sends what the ideal switch of the same ranks and
/// limits does, each cell in the same slot at the same output. Its matchings are the input-best ones of what the lists
/// offer, and after the arrivals of each slot no cell's input thread exceeds its output cushion. At its end no cell
/// waits, and it ends after as many slots as the ideal switch: with the last arrival, or with the last departure where
/// that is later. And the records of its slots are the only ones.
pub fn fabric_sends_as_the_ideal_switch()
    ensures emulates { (t : Tables) (came : List Arrival) (rs : List LimitedRecord) →
        IsTraffic (ports_of t.setup) (classes_of t.setup) came → (is : IsFabricRun t came rs) →
        EmulatesIdeal t came rs is }
    // where no output has a limit a cell departs in the last slot
    ensures slots_without_limits { (t : Tables) (came : List Arrival) (rs : List LimitedRecord) →
        NoLimits t.limits → IsSetup t.setup → IsTraffic (ports_of t.setup) (classes_of t.setup) came →
        IsFabricRun t came rs → (figures_of (ports_of t.setup) (slots_in rs)).slots ≡ length rs }
    ensures one { (t : Tables) (came : List Arrival) (rs ss : List LimitedRecord) →
        IsFabricRun t came rs → IsFabricRun t came ss → rs ≡ ss }
{}

/// Every packet leaves its output whole, or is counted as refused there: one of both, once. So who misses a packet in
/// what was written of an output can trust that it is in the count.
#[tactic(auto, using(crate::proofs::EachPacket::each_packet_once))]
pub fn each_packet_is_written_or_counted()
    ensures { (t : Tables) (captures : List (List Captured)) (rs : List LimitedRecord) →
        AreTables t → length captures ≡ ports_of t.setup → IsFabricRun t (arrivals t captures) rs →
        EachPacketOnce t captures (departures_in_run rs) (refused_in_run rs) }
{}

/// The cells that arrive at an input come packet after packet: the numbers of the packets rise, and of each packet the
/// first cell comes first. So where outputs have limits each packet is admitted or refused whole.
#[tactic(auto, using(crate::proofs::OfPackets::packets_come))]
pub fn whole_packets_arrive()
    ensures { (t : Tables) (captures : List (List Captured)) (input : ℕ) →
        AreTables t → length captures ≡ ports_of t.setup → input < length captures →
        AreOfPackets 0 (cells_at input (traffic_of (arrivals t captures))) }
{}

/// From every state that can be taken up an engine of the tables' machines and limits can go on, with room at each port
/// for the cells that arrive there in all. So what was read meets what `Engine::thaw` asks of a state.
pub fn taken_up_states_can_go_on()
    ensures { (t : Tables) (s : Scheduled) (from : Taken) →
        IsScheduleFor t s → CanBeTakenUp (switch_of t s) from →
        CanGoOn (machines_of t.setup) t.limits (by_port is_from t s.came) (by_port is_to t s.came) from.frozen }
{}

/// What a run sends leaves in whole packets: of the ideal switch, of the fabric, and of a fabric that goes on from any
/// state that can be taken up. So it can be put together, as `packets_of` and `packets_of_all` ask. And at each output
/// the departures of one input and one class are in the order of arrival, and so are their packets.
pub fn runs_leave_whole_packets()
    ensures ideal { (t : Tables) (captures : List (List Captured)) (sent : List Departure) →
        AreTables t → length captures ≡ ports_of t.setup → ideal_departures t (arrivals t captures) ≡ Ok sent →
        HaveLeftOf t captures sent (t0_of captures) }
    ensures fabric { (t : Tables) (captures : List (List Captured)) (rs : List LimitedRecord) →
        AreTables t → length captures ≡ ports_of t.setup → IsFabricRun t (arrivals t captures) rs →
        HaveLeftOf t captures (departures_in_run rs) (t0_of captures) }
    ensures resumed { (t : Tables) (captures : List (List Captured)) (from : Taken) (kept : Kept) →
        AreTables t → length captures ≡ ports_of t.setup → CanBeTakenUp (switch_of t (schedule_of t captures)) from →
        IsResumed (switch_of t (schedule_of t captures)) from kept →
        HaveLeftOf t captures kept.sent (t0_of captures) }
    ensures ideal_in_order { (t : Tables) (captures : List (List Captured)) (sent : List Departure) →
        AreTables t → length captures ≡ ports_of t.setup → ideal_departures t (arrivals t captures) ≡ Ok sent →
        LeaveInOrder (arrivals t captures) sent }
    ensures fabric_in_order { (t : Tables) (captures : List (List Captured)) (rs : List LimitedRecord) →
        AreTables t → length captures ≡ ports_of t.setup → IsFabricRun t (arrivals t captures) rs →
        LeaveInOrder (arrivals t captures) (departures_in_run rs) }
    ensures resumed_in_order { (t : Tables) (captures : List (List Captured)) (from : Taken) (kept : Kept) →
        AreTables t → length captures ≡ ports_of t.setup → CanBeTakenUp (switch_of t (schedule_of t captures)) from →
        IsResumed (switch_of t (schedule_of t captures)) from kept →
        LeaveInOrder (arrivals t captures) kept.sent }
{}
