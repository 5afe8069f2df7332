// Answers and their lines.
use fields::faults::Fault;
use filters::calls::{Answer, Best};
use replies::answers::write_answer;
use std::process::Abort;
use std::test::Fail;

const LISTED: [u16; 3] = [3, 65535, 7];

const BEST: Best = Best {
    identifier: 1,
    flow: 10,
};

fn shows(
    rt: &(impl Abort + AllocGlobal),
    answer: Result<Answer, Fault>,
    line: &str,
) -> Result<(), Fail> {
    let mut out = String::new(rt.alloc());
    write_answer(&mut out, answer, &LISTED)?;
    assert_eq!(rt; out.as_str(), line);
    Ok(())
}

#[test]
fn labels_in_use_and_freed(rt: HostRuntime) -> Result<(), Fail> {
    shows(&rt, Ok(Answer::Added(6, 5)), "+ 6 5")?;
    shows(&rt, Ok(Answer::Added(0, 0)), "+ 0 0")?;
    shows(&rt, Ok(Answer::Removed(1, 5)), "- 1 5")
}

#[test]
fn counts_without_labels(rt: HostRuntime) -> Result<(), Fail> {
    shows(&rt, Ok(Answer::Inspected(95, 2)), "# 2")
}

#[test]
fn searches(rt: HostRuntime) -> Result<(), Fail> {
    shows(&rt, Ok(Answer::Found(Some(BEST), 1, 21)), "= 1 10 21 3")?;
    shows(&rt, Ok(Answer::Found(None, 0, 5)), "= 0 0 5")?;
    shows(
        &rt,
        Ok(Answer::Found(None, 3, 4294967295)),
        "= 0 0 4294967295 3 65535 7",
    )?;
    shows(&rt, Ok(Answer::Found(None, 255, 0)), "= 0 0 0 3 65535 7")
}

#[test]
fn refusals(rt: HostRuntime) -> Result<(), Fail> {
    shows(&rt, Err(Fault::Line), "! 1 0")?;
    shows(&rt, Err(Fault::Unknown(2)), "! 16 2")?;
    shows(&rt, Err(Fault::Crowded), "! 18 96")
}

// A line goes behind what is there.
#[test]
fn lines_follow_each_other(rt: HostRuntime) -> Result<(), Fail> {
    let mut out = String::new(rt.alloc());
    write_answer(&mut out, Ok(Answer::Added(3, 5)), &[])?;
    out.push('\n')?;
    write_answer(&mut out, Ok(Answer::Inspected(0, 9)), &[])?;
    assert_eq!(rt; out.as_str(), "+ 3 5\n# 9");
    Ok(())
}
