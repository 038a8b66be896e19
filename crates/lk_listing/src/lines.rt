//! The line of a label, and that of a frame.

ghost use Rattle.lk_listing.specs.Listing.{frame_line, fun_line, home_text, place_word, step_text};
ghost use Rattle.std.specs.Prelude.{◌≡◌, IfOk};

use crate::types::{env_of, signature_of};
use lk_ast::{Loc, NoMemory, Text};
use lk_code::{FrameInfo, FunInfo};
use lk_types::print_ground;
use std::alloc::Global;

fn place_word(place: Loc) -> &'static str
    ensures { result.now ≡ place_word place }
{
    match place {
        Loc::Client => "client",
        Loc::Server => "server",
        Loc::Any => "any",
    }
}

/// `fun N PLACE NAME : TYPE [ENV]`.
pub fn line_of_fun(alloc: Global, number: usize, info: &FunInfo) -> Result<Text, NoMemory>
    ensures { IfOk result (λ line. line ≡ fun_line number info.now) }
{
    let signature = signature_of(alloc, info)?;
    let env = env_of(alloc, info.env.as_slice())?;
    let place = place_word(info.place);
    let line = format!(in alloc;
        "fun {} {} {} : {} {}\n",
        number,
        place,
        info.name.as_str(),
        signature.as_str(),
        env.as_str()
    )?;
    Ok(Text::from_string(line))
}

/// `frame N PLACE NAME NODE POSITION : HOLE -> RESULT [ENV]`.
pub fn line_of_frame(alloc: Global, number: usize, info: &FrameInfo) -> Result<Text, NoMemory>
    ensures { IfOk result (λ line. line ≡ frame_line number info.now) }
{
    let home = home_of(alloc, info)?;
    let step = step_of(alloc, info)?;
    let env = env_of(alloc, info.env.as_slice())?;
    let line = format!(in alloc;
        "frame {} {} : {} {}\n",
        number,
        home.as_str(),
        step.as_str(),
        env.as_str()
    )?;
    Ok(Text::from_string(line))
}

/// `PLACE NAME NODE POSITION`.
fn home_of(alloc: Global, info: &FrameInfo) -> Result<Text, NoMemory>
    ensures { IfOk result (λ text. text ≡ home_text info.now) }
{
    let place = place_word(info.place);
    let text = format!(in alloc;
        "{} {} {} {}",
        place,
        info.owner.as_str(),
        info.node.as_str(),
        info.position
    )?;
    Ok(Text::from_string(text))
}

/// `HOLE -> RESULT`.
fn step_of(alloc: Global, info: &FrameInfo) -> Result<Text, NoMemory>
    ensures { IfOk result (λ text. text ≡ step_text info.now) }
{
    let hole = print_ground(alloc, &info.hole)?;
    let result = print_ground(alloc, &info.result)?;
    let text = format!(in alloc; "{} -> {}", hole.as_str(), result.as_str())?;
    Ok(Text::from_string(text))
}
