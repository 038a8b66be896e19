//! Lines of a schedule.

/// What a line of a schedule says. Sessions are counted from 1.
#[derive(Clone, Copy)]
pub enum Line {
    /// `run I N`: session I takes at most N steps.
    Run(u32, u64),
    /// `up I N`: at most N further bytes of the request of session I reach the server.
    Up(u32, u64),
    /// `down I N`: at most N further bytes of the reply to session I reach it.
    Down(u32, u64),
    /// `auto N`: each session in turn goes on for at most N steps.
    Auto(u64),
}
