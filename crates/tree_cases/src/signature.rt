//! Types of signatures as a line of text, such as `Fun([List(Int)], Text)`.

use crate::line::Line;
use lk_ast::{Sig, SigField, SigType};

/// Puts a type.
#[cycle(types)]
pub fn put_type(line: &mut Line, ty: &SigType) {
    match ty {
        SigType::Int => line.put("Int"),
        SigType::Bool => line.put("Bool"),
        SigType::Text => line.put("Text"),
        SigType::List(item) => {
            line.put("List(");
            put_type(line, item.get());
            line.put(")");
        }
        SigType::Fields(fields) => {
            line.put("Fields(");
            add_fields(line, fields.as_slice());
            line.put(")");
        }
        SigType::Tags(tags) => {
            line.put("Tags(");
            add_fields(line, tags.as_slice());
            line.put(")");
        }
        SigType::Fun(params, answer) => {
            line.put("Fun([");
            add_types(line, params.as_slice());
            line.put("], ");
            put_type(line, answer.get());
            line.put(")");
        }
    }
}

#[cycle(types)]
fn add_types(line: &mut Line, types: &[SigType]) {
    for ty in types {
        line.put_comma();
        put_type(line, ty);
    }
}

#[cycle(types)]
fn add_fields(line: &mut Line, fields: &[SigField]) {
    for field in fields {
        line.add_word(&field.label);
        line.put(" : ");
        put_type(line, &field.ty);
    }
}

/// Adds the signature of a function, if there is one.
pub fn add_sig(line: &mut Line, sig: &Option<Sig>) {
    if let Some(sig) = sig {
        line.put_comma();
        line.put("sig ");
        line.put_word(&sig.name);
        line.put(" : ");
        put_type(line, &sig.ty);
    }
}
