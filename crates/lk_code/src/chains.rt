//! Which frames go on with one another.

ghost use Rattle.lk_code.specs.Chains.{ChainFits};
ghost use Rattle.std.specs.Option.{option_copied};
ghost use Rattle.std.specs.Prelude.{◌≡◌, ◌↔◌, ◌<◌, IsTrue, IfSome, length};

use crate::code::{Code, frame_of};
use crate::infos::FrameInfo;
use crate::tables::Frame;
use lk_ir::same_type;
use lk_types::Ground;

/// Whether these frames, the next one first, go on with one another, the last one and no other a return, and wait for a value of this
/// type, if one is given. Takes no memory.
pub fn chain_fits(c: &Code, frames: &[Frame], hole: Option<&Ground>) -> bool
    ensures { IsTrue result ↔ ChainFits c.now.tables frames.now (option_copied hole.entry) }
{
    let mut wanted = hole;
    for (i, frame) in frames.iter().enumerate() {
        let Some(info) = frame_of(c, frame.number) else {
            return false;
        };
        if !is_wanted(info, wanted) {
            return false;
        }
        if i + 1 == frames.len() {
            return is_return(c, frame);
        }
        if is_return(c, frame) {
            return false;
        }
        wanted = Some(&info.result);
    }
    false
}

/// Whether it is the return of a label.
fn is_return(c: &Code, frame: &Frame) -> bool
    ensures { IsTrue result ↔ (frame.now.number < length c.now.tables.funs) }
{
    (frame.number as usize) < c.tables().funs.len()
}

/// Whether it waits for a value of this type, if one is given.
fn is_wanted(info: &FrameInfo, wanted: Option<&Ground>) -> bool
    ensures { IsTrue result ↔ IfSome (option_copied wanted.entry) (λ t. info.now.hole ≡ t) }
{
    match wanted {
        Some(t) => same_type(&info.hole, t),
        None => true,
    }
}
