//! Readers of the board, on the writer's thread and on another.
ghost use Rattle.std.specs.Prelude.{◌≡◌, ◌+◌, ◌<◌, [], ◌∷◌, length, slice_index, IfSome};
ghost use Rattle.hc_board.specs.States.{AllFit};

use hc_board::{Board, Look, Reader, Writer};
use std::test::Fail;
use std::thread::{Threads, join};

const ROUNDS: u64 = 1000;

// A row: the index stored and its word, and then the index looked at and what is found there.
const ROWS: [(u32, u64, u32, u64); 7] = [
    (3, 5, 3, 5),
    (0, 9, 4, 0),
    (3, 6, 3, 6),
    (1, 2, u32::MAX, 0),
    (2, 8, 0, 9),
    (2, 4, 2, 4),
    (3, 0, 3, 0),
];

#[test]
fn looks_find_the_last_store_and_nothing_past_the_end(rt: HostRuntime) -> Result<(), Fail> {
    let (_board, mut writer) = Board::make(rt.alloc(), 4)?;
    let mut reader = writer.reader()?;
    for (index, word, asked, found) in ROWS {
        assert!(rt; index < 4);
        writer.store(index, word);
        assert!(rt; reader.look(asked) == found);
        reader = writer.renew(reader);
    }
    writer.meet(reader);
    assert!(rt; [writer.writes(), writer.met()] == [7, 8]);
    Ok(())
}

// Two looks by whoever looks: one run of two reads.
fn look_twice<L: Look>(from: &mut L, first: u32, second: u32) -> (u64, u64)
    ensures values { IfSome (L.image from.old) (λ words. (result.0 ≡ slice_index words first) × (result.1 ≡ slice_index words second)) }
    ensures looked { L.looked from.old ((first, result.0) ∷ (second, result.1) ∷ []) from.new }
{
    let a = from.look(first);
    let b = from.look(second);
    (a, b)
}

#[test]
fn the_writer_and_a_reader_look_alike(rt: HostRuntime) -> Result<(), Fail> {
    let (_board, mut writer) = Board::make(rt.alloc(), 2)?;
    writer.store(1, 6);
    let mut reader = writer.reader()?;
    assert!(rt; look_twice(&mut writer, 0, 1) == (0, 6));
    assert!(rt; look_twice(&mut reader, 1, 2) == (6, 0));
    Ok(())
}

fn store_upwards(writer: &mut Writer)
    requires { 0 < writer.old.board.words }
    ensures board { writer.new.board ≡ writer.old.board }
    ensures met { writer.new.met ≡ writer.old.met }
{
    for word in 0..ROUNDS {
        writer.store(0, word);
    }
}

// How many looks found less than the look before.
fn falls(reader: &mut Reader) -> u64
    ensures { reader.new.board ≡ reader.old.board }
{
    let mut falls = 0u64;
    let mut before = 0;
    for _ in 0..ROUNDS {
        let found = reader.look(0);
        if found < before {
            falls = falls.saturating_add(1);
        }
        before = found;
    }
    falls
}

// One thread stores while another looks. What was looked at fits the stores, whatever the order was.
fn side_by_side<R: Threads + Sync>(rt: &R, writer: Writer, reader: Reader) -> (Writer, u64)
    requires words { 0 < writer.board.words }
    requires board { reader.board ≡ writer.board }
    ensures fits { AllFit result.0 }
    ensures met { length result.0.met ≡ length writer.met + 1 }
{
    let mut writer = writer;
    let mut reader = reader;
    let (mut writer, (reader, falls)) = join(
        rt,
        move || -> Writer
            ensures { (result.board ≡ writer.board) × (result.met ≡ writer.met) }
        {
            store_upwards(&mut writer);
            writer
        },
        move || -> (Reader, u64)
            ensures { result.0.board ≡ reader.board }
        {
            let falls = falls(&mut reader);
            (reader, falls)
        },
    );
    writer.meet(reader);
    let _ = writer.met();
    (writer, falls)
}

#[test]
fn a_reader_in_another_thread_sees_the_stores_in_order(rt: HostRuntime) -> Result<(), Fail> {
    let (_board, mut writer) = Board::make(rt.alloc(), 2)?;
    let reader = writer.reader()?;
    let (writer, falls) = side_by_side(&rt, writer, reader);
    assert!(rt; [falls, writer.writes(), writer.met()] == [0, ROUNDS, 1]);
    Ok(())
}
