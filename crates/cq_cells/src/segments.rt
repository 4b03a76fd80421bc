//! How packets are cut into cells.
ghost use Rattle.std.specs.Prelude.{◌≡◌, ◌≤◌};
ghost use Rattle.cq_cells.specs.Terms.{cells_of};

/// How many cells a packet of this many captured bytes has, where a cell carries so many: enough for
/// all bytes, and one for a packet without bytes.
#[tactic(auto, unfolding(cq_base::specs::Pieces::cells_of))]
pub fn cells_of(length: u32, cell_bytes: u32) -> u32
    requires { 1 ≤ cell_bytes }
    ensures { result ≡ cells_of length cell_bytes }
{
    length.div_ceil(cell_bytes).max(1)
}
