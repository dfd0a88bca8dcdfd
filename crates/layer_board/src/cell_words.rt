//! Cells as words of a board.

ghost use Rattle.std.specs.Prelude.{◌≡◌, ◌<◌, ◌-◌, ◌/◌, ◌%◌};
ghost use Rattle.layer_core.specs.Pairing.{pair_of};
ghost use Rattle.layer_core.specs.Instances.{cell_for};
ghost use Rattle.layer_board.specs.Invariant.{word_of, IsCellWord};

use layer_core::CellResult;
use subset_layers::Cell;

/// The word of the posted cell, 32 * (cost + 1) + variable; 0 is that of an empty cell.
pub(crate) fn word_of_cell(posted: &CellResult) -> u64
    ensures word { result ≡ word_of posted.now.cell }
    ensures cell { IsCellWord result }
    ensures variable { posted.now.cell.1 < 32 }
    ensures right { posted.now.cell ≡ cell_for posted.now.instance posted.now.mask }
{
    let cell = posted.cell();
    (u64::from(cell.cost) + 1) * 32 + u64::from(cell.variable)
}

/// The cell of which `word` is the word, 32 * (cost + 1) + variable.
pub(crate) fn cell_of_word(word: u64) -> Cell
    requires { IsCellWord word }
    ensures { pair_of result ≡ (word / 32 - 1, word % 32) }
{
    Cell {
        cost: (word / 32 - 1) as u32,
        variable: (word % 32) as u8,
    }
}
