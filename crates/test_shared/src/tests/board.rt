ghost use Rattle.std.specs.Prelude.{◌≡◌};
ghost use Rattle.mm_board.specs.Views.{processes_of};

use crate::tests::same::same;
use mm_board::{Name, RawBoard, Waiter};
use std::marker::Brand;
use std::process::Abort;
use std::test::Fail;
use test_support::label;

// The example of README.md.
#[test]
fn stores_reads_and_shows(rt: HostRuntime) -> Result<(), Fail> {
    let raw = RawBoard::new(rt.alloc(), 3)?;
    store_read_and_show::<Brand, _>(&rt, raw);
    Ok(())
}

fn store_read_and_show<N: Name, R: Abort>(rt: &R, raw: RawBoard)
    requires named { raw ≡ N.board }
    requires processes { processes_of raw ≡ 3 }
{
    let (board, mut publisher, mut reader) = raw.open::<N>();
    same(rt, reader.read_label(&board, 2), label(0, 2));
    publisher.store_label(&board, 1, label(4, 1));
    same(rt, reader.read_label(&board, 1), label(4, 1));
    publisher.store_holder(&board, 0, Some(1));
    same(rt, reader.read_holder(&board, 0), Some(1));
    let waiter = Waiter {
        process: 0,
        holder: 1,
    };
    same(rt, reader.next_waiter(&board, 0), Some(waiter));
    same(rt, reader.next_waiter(&board, 1), None);
    publisher.store_holder(&board, 0, None);
    same(rt, reader.read_holder(&board, 0), None);
    let mut other = reader.split(&board);
    same(rt, other.read_label(&board, 1), label(4, 1));
    publisher.store_label(&board, 1, label(5, 1));
    publisher.show(&board, &mut other);
    same(rt, other.read_label(&board, 1), label(5, 1));
}
