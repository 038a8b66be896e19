//! Schedules as a line of text, such as `run 1 5, up 2 0`.

use crate::line::Line;
use lk_join::{Line as Step, ScheduleError, read_schedule};
use std::alloc::Global;

/// Puts what the lines of a schedule say, or the first that is bad.
pub fn put_schedule(alloc: Global, line: &mut Line, text: &[u8], sessions: u32) {
    match read_schedule(alloc, text, sessions) {
        Ok(steps) => put_steps(line, steps.as_slice()),
        Err(ScheduleError::BadSchedule(number)) => put_bad(line, number),
        Err(ScheduleError::NoMemory) => line.put_no_memory(),
    }
}

fn put_bad(line: &mut Line, number: u32) {
    line.put("bad ");
    line.put_count(u64::from(number));
}

fn put_steps(line: &mut Line, steps: &[Step]) {
    for step in steps {
        line.put_comma();
        put_step(line, *step);
    }
}

fn put_step(line: &mut Line, step: Step) {
    match step {
        Step::Run(session, count) => put_for(line, "run ", session, count),
        Step::Up(session, count) => put_for(line, "up ", session, count),
        Step::Down(session, count) => put_for(line, "down ", session, count),
        Step::Auto(count) => put_all(line, count),
    }
}

fn put_for(line: &mut Line, form: &str, session: u32, count: u64) {
    line.put(form);
    line.put_count(u64::from(session));
    line.put(" ");
    line.put_count(count);
}

fn put_all(line: &mut Line, count: u64) {
    line.put("auto ");
    line.put_count(count);
}
