//! The report of a run. What its lines are is shown by samples beside their definition.

use lk_ast::{Base, Bytes, Event, List, Text, Value};
use lk_join::{End, Entry, Report, SessionReport, report_status, report_text};
use std::test::Fail;

const WHOLE: &str =
    "session 1 done 9 \"ann\"\nsession 2 too-big 4 1048577\n1 request a b%0D%0A\n1 enter\n1 leave\n1 reply 100%25\n1 print \"hi\"\n0 cut\n";

#[test]
fn report_of_two_sessions(rt: HostRuntime) -> Result<(), Fail> {
    let alloc = rt.alloc();
    let ann = Value::Base(Base::Text(Text::from_str(alloc, "ann")?));
    let sessions = vec![in alloc;
        SessionReport {
            end: End::Done(ann),
            steps: 9,
        },
        SessionReport {
            end: End::TooBig(1_048_577),
            steps: 4,
        },
    ]?;
    let request = Bytes::from_slice(alloc, b"a b\r\n")?;
    let reply = Bytes::from_slice(alloc, b"100%")?;
    let hi = Text::from_str(alloc, "hi")?;
    let entries = vec![in alloc;
        Entry::Request(1, request),
        Entry::Happened(1, Event::Enter),
        Entry::Happened(1, Event::Leave),
        Entry::Reply(1, reply),
        Entry::Happened(1, Event::Print(hi)),
        Entry::Cut(0),
    ]?;
    let report = Report {
        sessions: List::from_vec(sessions),
        entries: List::from_vec(entries),
        tables: List::new(alloc),
    };
    let text = report_text(alloc, &report)?;
    assert_eq!(rt; text.as_str(), WHOLE);
    assert_eq!(rt; report_status(&report), 8);
    Ok(())
}
