// What the console answers to network commands before it has a plan: a script has no such line once it made one.
use console::{Answers, Console};
use std::io::BufWriter;
use std::test::Fail;

// What keeps a console that ran no line before from carrying out this one, as it is answered.
fn obstacle(rt: &HostRuntime, line: &str) -> Result<String, Fail> {
    let heap = rt.alloc();
    let mut out = BufWriter::new(heap, rt.stdout())?;
    let mut notes = BufWriter::new(heap, rt.stderr())?;
    let mut console = Console::new(heap);
    let mut answers = Answers::to(1, &mut out, &mut notes);
    let obeyed = console.obey(line.as_bytes(), &mut answers);
    console.finish();
    let stop = obeyed.err().ok_or_else(|| Fail::new("nothing keeps it"))?;
    Ok(format!(in heap; "{stop}")?)
}

// These lack a coordinator too, and some a device, an open superframe and a frame.
#[test]
fn no_plan_comes_before_what_else_is_lacking(rt: HostRuntime) -> Result<(), Fail> {
    let lines = [
        "coordinator",
        "hall 1 0 1",
        "device a 3 1 uplink",
        "mode Online",
        "open",
        "hear 3 @a",
        "hear-management @coordinator",
        "close",
        "record 1",
        "summary",
        "beacon a @open",
        "missed a",
        "offer a 1 0",
        "send a 3",
        "write a",
        "take a @coordinator",
        "phase a",
    ];
    for line in lines {
        let answer = obstacle(&rt, line)?;
        assert_eq!(rt; answer.as_str(), "no plan", "at {line}");
    }
    Ok(())
}

#[test]
fn not_understood_comes_before_no_plan(rt: HostRuntime) -> Result<(), Fail> {
    let lines = [
        "coordinator 1",
        "hall 1 0",
        "device 3a 3 1 uplink",
        "open space=-1",
        "hear 3 4",
        "close 0",
        "record",
        "offer a 1",
    ];
    for line in lines {
        let answer = obstacle(&rt, line)?;
        assert_eq!(rt; answer.as_str(), "not understood", "at {line}");
    }
    Ok(())
}
