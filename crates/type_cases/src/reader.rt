//! Types from text, as `print_type` writes them: `((a:Int|t1)) {print|t2}-> [t3]`. A variable keeps its number, fields and effects
//! keep their order, and both may be there twice.

use lk_ast::{Boxed, List, Text};
use lk_types::{Effect, Effects, Equation, RowTail, Side, Ty, TyField, TyRow};
use std::alloc::Global;

/// How deeply records, variants and functions may nest.
const DEPTH: u32 = 32;

/// The words of the effects. None is how another one begins.
const EFFECTS: [(&str, Effect); 7] = [
    ("local", Effect::Local),
    ("move", Effect::Move),
    ("print", Effect::Print),
    ("rec", Effect::Rec),
    ("scan", Effect::Scan),
    ("trap", Effect::Trap),
    ("write", Effect::Write),
];

/// What is left of a text, and whether it has been well so far. Where it isn't, or memory runs out, nothing is left of it, so that
/// all steps behind end soon, and what they make is of no use.
#[derive(Drop)]
struct Reader<'a> {
    alloc: Global,
    rest: &'a str,
    is_well: bool,
}

impl<'a> Reader<'a> {
    fn fail(&mut self) {
        self.rest = "";
        self.is_well = false;
    }

    /// Some type, where none can be read.
    fn no_type(&mut self) -> Ty {
        self.fail();
        Ty::Int
    }

    /// Takes a sign, if the text goes on with it.
    fn takes(&mut self, sign: &str) -> bool {
        match self.rest.strip_prefix(sign) {
            None => false,
            Some(rest) => {
                self.rest = rest;
                true
            }
        }
    }

    fn needs(&mut self, sign: &str) {
        if !self.takes(sign) {
            self.fail();
        }
    }

    fn number(&mut self) -> u32 {
        let rest = self.rest.trim_start_matches(|c: char| c.is_ascii_digit());
        let digits = self.rest.strip_suffix(rest).unwrap_or("");
        self.rest = rest;
        match digits.parse::<u32>() {
            Ok(number) => number,
            Err(_) => {
                self.fail();
                0
            }
        }
    }

    /// `|t1`, or nothing.
    fn tail(&mut self) -> RowTail {
        if self.takes("|t") {
            return RowTail::Var(self.number());
        }
        RowTail::Closed
    }

    // ---- types

    /// A type, in which records, variants and functions nest so deeply at most.
    #[cycle(types)]
    fn ty(&mut self, depth: u32) -> Ty {
        let lists = self.brackets();
        let item = self.item(depth);
        self.in_brackets(item, lists)
    }

    /// Takes the brackets of lists, and counts them.
    fn brackets(&mut self) -> usize {
        let mut count = 0usize;
        for _ in 0..self.rest.len() {
            if self.rest.starts_with("[|") || !self.takes("[") {
                break;
            }
            count = count.wrapping_add(1);
        }
        count
    }

    /// The type in so many brackets, of which those behind it are still to come.
    fn in_brackets(&mut self, item: Ty, count: usize) -> Ty {
        let mut ty = item;
        for _ in 0..count {
            self.needs("]");
            ty = self.list_of(ty);
        }
        ty
    }

    fn list_of(&mut self, item: Ty) -> Ty {
        match Boxed::new(self.alloc, item) {
            Ok(item) => Ty::List(item),
            Err(_) => self.no_type(),
        }
    }

    /// A type that is no list.
    #[cycle(types)]
    fn item(&mut self, depth: u32) -> Ty {
        if depth == 0 {
            return self.no_type();
        }
        if self.takes("[|") {
            return self.variant(depth - 1);
        }
        if self.takes("(") {
            return self.in_parentheses(depth - 1);
        }
        self.word()
    }

    fn word(&mut self) -> Ty {
        if self.takes("Int") {
            return Ty::Int;
        }
        if self.takes("Bool") {
            return Ty::Bool;
        }
        if self.takes("String") {
            return Ty::Text;
        }
        self.needs("t");
        Ty::Var(self.number())
    }

    /// `A:T,B:T|t1|]`.
    #[cycle(types)]
    fn variant(&mut self, depth: u32) -> Ty {
        let row = self.row(depth);
        self.needs("|]");
        Ty::Tags(row)
    }

    /// Fields, or the parameters of a function, behind which comes a blank.
    #[cycle(types)]
    fn in_parentheses(&mut self, depth: u32) -> Ty {
        if self.rest.starts_with('|') || self.label().is_some() {
            return self.record(depth);
        }
        let params = self.types(depth);
        self.needs(")");
        if self.takes(" ") {
            return self.function(depth, params);
        }
        self.unit(params)
    }

    /// `l:T,m:T|t1)`.
    #[cycle(types)]
    fn record(&mut self, depth: u32) -> Ty {
        let row = self.row(depth);
        self.needs(")");
        Ty::Fields(row)
    }

    /// The record without fields, in whose place no parameters may stand.
    fn unit(&mut self, params: List<Ty>) -> Ty {
        if !params.is_empty() {
            self.fail();
        }
        let fields = List::new(self.alloc);
        let tail = RowTail::Closed;
        Ty::Fields(TyRow { fields, tail })
    }

    /// `{e,e|t1}-> T`, behind these parameters.
    #[cycle(types)]
    fn function(&mut self, depth: u32, params: List<Ty>) -> Ty {
        let effects = self.effects();
        self.needs("-> ");
        let answer = self.ty(depth);
        match Boxed::new(self.alloc, answer) {
            Ok(answer) => Ty::Fun(params, effects, answer),
            Err(_) => self.no_type(),
        }
    }

    /// `T,T`.
    #[cycle(types)]
    fn types(&mut self, depth: u32) -> List<Ty> {
        let mut types = List::new(self.alloc);
        for _ in 0..self.rest.len() {
            if self.rest.starts_with(')') {
                break;
            }
            let ty = self.ty(depth);
            if types.push(ty).is_err() {
                self.fail();
            }
            if !self.takes(",") {
                break;
            }
        }
        types
    }

    // ---- rows

    /// The label that the text goes on with, and what is left behind the colon behind it.
    fn label(&self) -> Option<(&'a str, &'a str)> {
        let (label, rest) = self.rest.split_once(':')?;
        if label.bytes().all(|b| b.is_ascii_alphanumeric()) {
            return Some((label, rest));
        }
        None
    }

    /// `l:T,m:T|t1`.
    #[cycle(types)]
    fn row(&mut self, depth: u32) -> TyRow {
        let fields = self.fields(depth);
        let tail = self.tail();
        TyRow { fields, tail }
    }

    /// `l:T,m:T`.
    #[cycle(types)]
    fn fields(&mut self, depth: u32) -> List<TyField> {
        let mut fields = List::new(self.alloc);
        for _ in 0..self.rest.len() {
            let Some((label, rest)) = self.label() else {
                break;
            };
            self.rest = rest;
            let ty = self.ty(depth);
            self.push_field(&mut fields, label, ty);
            if !self.takes(",") {
                break;
            }
        }
        fields
    }

    fn push_field(&mut self, fields: &mut List<TyField>, label: &str, ty: Ty) {
        match Text::from_str(self.alloc, label) {
            Ok(label) => {
                if fields.push(TyField { label, ty }).is_err() {
                    self.fail();
                }
            }
            Err(_) => self.fail(),
        }
    }

    // ---- effects

    fn effect(&mut self) -> Option<Effect> {
        for (word, effect) in EFFECTS {
            if self.takes(word) {
                return Some(effect);
            }
        }
        None
    }

    /// `e,e`.
    fn labels(&mut self) -> List<Effect> {
        let mut labels = List::new(self.alloc);
        for _ in 0..self.rest.len() {
            let Some(effect) = self.effect() else {
                break;
            };
            if labels.push(effect).is_err() {
                self.fail();
            }
            if !self.takes(",") {
                break;
            }
        }
        labels
    }

    /// `{e,e|t1}`, or nothing.
    fn effects(&mut self) -> Effects {
        if !self.takes("{") {
            return Effects {
                labels: List::new(self.alloc),
                tail: RowTail::Closed,
            };
        }
        let labels = self.labels();
        let tail = self.tail();
        self.needs("}");
        Effects { labels, tail }
    }
}

/// The type that a text is, if it is one and memory lasts.
pub fn read_type(alloc: Global, text: &str) -> Option<Ty> {
    let mut reader = Reader {
        alloc,
        rest: text,
        is_well: true,
    };
    let ty = reader.ty(DEPTH);
    if reader.is_well && reader.rest.is_empty() {
        return Some(ty);
    }
    None
}

/// The equation `T = T` that a text is, if it is one and memory lasts.
pub fn read_equation(alloc: Global, text: &str) -> Option<Equation> {
    let (left, right) = text.split_once(" = ")?;
    let left = read_type(alloc, left)?;
    let right = read_type(alloc, right)?;
    Some(Equation {
        left: Side::of(left),
        right: Side::of(right),
    })
}

/// Whether a text is an equation.
pub fn is_equation(alloc: Global, text: &str) -> bool {
    read_equation(alloc, text).is_some()
}

/// Whether a text is a type.
pub fn is_type(alloc: Global, text: &str) -> bool {
    read_type(alloc, text).is_some()
}
