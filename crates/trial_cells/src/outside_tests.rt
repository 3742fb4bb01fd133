//! Files and a sink in memory, the calls over them, and the orders.
use sq_port::{
    FileEnd, Files, FirstOrder, LastOrder, Line, ListOrder, MemFiles, MemSink, Order, Picks,
    ReadEnd, SeedOrder, Sink, put_all, put_next, read_whole,
};
use std::alloc::AllocError;
use std::test::Fail;

fn one_file(rt: &HostRuntime) -> Result<MemFiles, AllocError> {
    let mut files = MemFiles::new(rt.alloc());
    files.add("P", b"other")?;
    files.add("P", b"array")?;
    Ok(files)
}

// The name of a file, how many bytes it may have, and what is read.
const WHOLE: [(&str, u64, Result<&[u8], ReadEnd>); 3] = [
    ("P", 5, Ok(b"array")),
    ("P", 4, Err(ReadEnd::TooLong)),
    ("none", 5, Err(ReadEnd::Absent)),
];

#[test]
fn a_file_is_read_whole_up_to_its_limit(rt: HostRuntime) -> Result<(), Fail> {
    let mut files = one_file(&rt)?;
    for (name, most, wanted) in WHOLE {
        match read_whole(rt.alloc(), &mut files, name, most) {
            Ok(bytes) => assert_eq!(rt; Ok(bytes.as_slice()), wanted),
            Err(end) => assert_eq!(rt; Err(end), wanted),
        }
    }
    Ok(())
}

#[test]
fn just_the_named_read_fails(rt: HostRuntime) -> Result<(), Fail> {
    let mut files = one_file(&rt)?;
    files.fail_at(2);
    let mut room = [0u8; 3];
    assert_eq!(rt; files.read_at("P", 3, &mut room), Ok(2));
    assert_eq!(rt; files.read_at("P", 0, &mut room), Err(FileEnd::Failed));
    assert_eq!(rt; files.read_at("P", 0, &mut room), Ok(3));
    assert_eq!(rt; room.as_slice(), b"arr".as_slice());
    Ok(())
}

#[test]
fn a_full_sink_keeps_the_front_of_a_piece(rt: HostRuntime) -> Result<(), Fail> {
    let mut sink = MemSink::new(rt.alloc(), 5)?;
    assert!(rt; put_all(&mut sink, b"arr").is_ok());
    assert!(rt; put_all(&mut sink, b"ay B").is_err());
    assert_eq!(rt; sink.written(), b"array".as_slice());
    Ok(())
}

#[test]
fn just_the_named_put_fails(rt: HostRuntime) -> Result<(), Fail> {
    let mut sink = MemSink::new(rt.alloc(), 9)?;
    sink.fail_at(2);
    assert_eq!(rt; sink.put(b""), Ok(0));
    let first = put_next(&mut sink, Ok(()), b"a");
    let second = put_next(&mut sink, first, b"b");
    let third = put_next(&mut sink, second, b"c");
    assert!(rt; third.is_err());
    assert!(rt; put_all(&mut sink, b"d").is_ok());
    assert_eq!(rt; sink.written(), b"ad".as_slice());
    Ok(())
}

fn add_numbers(line: &mut Line, sink: &mut MemSink) {
    line.add(sink, b"of ");
    line.add_number(sink, 18_446_744_073_709_551_615);
    line.add(sink, b" ");
    line.add_signed(sink, -7);
}

#[test]
fn a_line_is_gathered_and_put_at_once(rt: HostRuntime) -> Result<(), Fail> {
    let mut sink = MemSink::new(rt.alloc(), 40)?;
    sink.fail_at(2);
    let mut line = Line::new();
    add_numbers(&mut line, &mut sink);
    assert_eq!(rt; sink.written(), b"".as_slice());
    assert!(rt; line.put(&mut sink).is_ok());
    assert_eq!(rt; sink.written(), b"of 18446744073709551615 -7".as_slice());
    line.add(&mut sink, b"more");
    assert!(rt; line.put(&mut sink).is_err());
    line.add(&mut sink, b"and more");
    assert!(rt; line.put(&mut sink).is_err());
    assert_eq!(rt; sink.written().len(), 26);
    Ok(())
}

#[test]
fn a_long_text_is_put_in_pieces(rt: HostRuntime) -> Result<(), Fail> {
    let long = vec![in rt.alloc(); b'x'; 9000]?;
    let mut sink = MemSink::new(rt.alloc(), 20_000)?;
    let mut line = Line::new();
    line.add(&mut sink, b"ab");
    line.add(&mut sink, &long[..8191]);
    line.add(&mut sink, &long);
    line.add(&mut sink, b"c");
    assert!(rt; line.put(&mut sink).is_ok());
    assert_eq!(rt; sink.written().len(), 2 + 8191 + 9000 + 1);
    assert!(rt; sink.written().starts_with(b"abx"));
    Ok(())
}

#[test]
fn the_orders_answer_as_they_say(rt: HostRuntime) -> Result<(), Fail> {
    assert_eq!(rt; FirstOrder.pick(9), 0);
    assert_eq!(rt; LastOrder.pick(9), 8);
    let mut list = ListOrder::new(Picks::new(vec![in rt.alloc(); 7, 2]?));
    for number in [7, 2, 0] {
        assert_eq!(rt; list.pick(1), number);
    }
    Ok(())
}

// The words were computed apart, by the recurrences that PCG32 and the seeds of rand_core are published with.
const SEEDED: [(u64, [u64; 4]); 4] = [
    (0, [298703107, 4236525527, 336081875, 1056616254]),
    (1, [866585574, 2109535214, 3403630417, 296513984]),
    (7, [2442223337, 414063806, 2743600285, 3524868804]),
    (u64::MAX, [2553256318, 1362994822, 3759657484, 3366838333]),
];

#[test]
fn words_of_a_seed(rt: HostRuntime) {
    for (seed, words) in &SEEDED {
        let mut order = SeedOrder::new(*seed);
        for word in words {
            assert_eq!(rt; order.pick(5), *word);
        }
    }
}
