//! What made packets come to in the switch that is made for them.
ghost use Rattle.std.specs.Prelude.{◌≡◌, ◌*◌, ◌/◌, ◌%◌, ◌^◌, ◌<◌, ◌≤◌, ℕ, length};
ghost use Rattle.std.specs.Int.{IsInRange};
ghost use Rattle.cq_base.specs.Limits.{most_ports};
ghost use Rattle.cq_gen.specs.Packets.{packet_of};
ghost use Rattle.cq_gen.specs.Tables.{soak_tables};
ghost use Rattle.cq_route.specs.Route.{route};

/// The packet that a word makes goes to the output that is the word modulo the number of ports, in the
/// class that is the word's top three bits. It is one cell, and its stamp is the beginning of its slot.
/// It does nothing: its contract is the claim.
#[tactic(auto, using(crate::proofs::Routed::packet_steps))]
pub fn packets_go_by_their_words()
    ensures routed { (ports slot input word : ℕ) → IsInRange 1 most_ports ports → word < 2 ^ 32
        → route (soak_tables ports) input (packet_of ports slot input word).body ≡ (word % ports, word / 2 ^ 29) }
    ensures one_cell { (ports slot input word : ℕ)
        → length (packet_of ports slot input word).body ≤ (soak_tables ports).cell_bytes }
    ensures in_slot { (ports slot input word : ℕ)
        → (packet_of ports slot input word).stamp ≡ slot * (soak_tables ports).slot_ns }
{}
