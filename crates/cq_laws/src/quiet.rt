//! Slots in which nothing waits and nothing comes. Each law is the contract of a function that does nothing.
ghost use Rattle.std.specs.Prelude.{◌≡◌, ◌+◌, ℕ, List, length, replicate};
ghost use Rattle.cq_laws.specs.Terms.{no_arrivals, Machine, IsInputBest, Fabric, empty_fabric, IsEmptyFabric, FabricSlot, FabricRun, AddNothing, KeepLaws, idled, idled_for, quiet_slot, quiet_slots};

/// From a state without cells, slots in which none arrives send nothing, transfer nothing and change no
/// figure. They only tell the rank machines that their outputs were idle.
pub fn quiet_slots_add_nothing()
    ensures slot { (ms : List Machine) (slot ports : ℕ) (ranks : List (List ℕ)) →
        FabricSlot IsInputBest ms slot no_arrivals (empty_fabric ports ranks) (quiet_slot ms slot ports ranks)
        (empty_fabric ports (idled ms ports ranks)) }
    ensures run { (ms : List Machine) (count slot ports : ℕ) (ranks : List (List ℕ)) →
        FabricRun IsInputBest ms slot (replicate count no_arrivals) (empty_fabric ports ranks)
        (quiet_slots ms count slot ports ranks) (empty_fabric ports (idled_for ms count ports ranks)) }
    ensures nothing { (ms : List Machine) (ports count slot : ℕ) (ranks : List (List ℕ)) →
        AddNothing slot (quiet_slots ms count slot ports ranks) }
    // many are one, for machines that keep the laws
    ensures idle { (ms : List Machine) (ports count : ℕ) (ranks : List (List ℕ)) →
        KeepLaws ms ranks → idled_for ms (count + 1) ports ranks ≡ idled ms ports ranks }
    // each state without cells is such a one
    ensures empty { (f : Fabric) →
        IsEmptyFabric f → length f.buffers ≡ length f.inputs → f ≡ empty_fabric (length f.inputs) f.ranks }
{}
