//! What the lanes of a team execute between two barriers.
ghost use Rattle.std.specs.Prelude.{◌≡◌};

use kernel_syntax::Stmt;
use std::marker::Model;

/// What a lane does next in a phase.
#[derive(Clone, Copy)]
pub enum Item<'k> {
    /// A variable of an unrolled loop gets its value.
    Set { slot: u32, value: i64 },
    /// A statement; of a worksharing loop all but the barrier at its end. `which` is the number of
    /// loops whose chunks are drawn that stand before it in all phases of the team, which is the
    /// number, from 0, of such a loop's counter.
    Run { stmt: &'k Stmt, which: u32 },
    /// All lanes of the team meet.
    Bar { line: u32 },
}

/// What each lane of a team executes up to a barrier, or to the end. Contracts see its items.
#[derive(Drop)]
pub struct Phase<'k> {
    items: Vec<Item<'k>>,
}

impl<'k> Model for Phase<'k> {
    ghost use Rattle.std.specs.Prelude.{List};
    ghost use Rattle.std.specs.Coded.{codes};
    ghost use Rattle.kernel_syntax.specs.contracts.syntax.Stmt as stmt;
    ghost use Rattle.kernel_model.specs.declared.phase.Item.{Item};

    ghost Value = { List Item };

    ghost view = { λ phase. phase.items.items };

    ghost coded = { Prim.hlevel (codes, stmt.the_row.coded) };
}

impl<'k> Phase<'k> {
    /// The phase with these items.
    pub fn new(items: Vec<Item<'k>>) -> Self
        ensures { result ≡ items.entry.items }
    {
        Phase { items }
    }

    /// The items in order.
    pub fn items(&self) -> &[Item<'k>]
        ensures { result.now ≡ self.now }
    {
        self.items.as_slice()
    }
}
