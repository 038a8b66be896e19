//! What the words of a script make for the calls of the executor: scalars, selects, keys, parameters and rows.

use lk_ast::{Base, Boxed, Cell, List, NoMemory, Row, Text, copy_base};
use lk_sql::{FromItem, Key, Out, Scalar, Select, Sql, SqlOp};
use std::alloc::Global;
use std::mem;

/// What words have made that no call has taken yet. A word takes the scalars that it needs off the end, and `TRUE` where there
/// is none.
pub struct Made {
    alloc: Global,
    scalars: List<Scalar>,
    froms: List<FromItem>,
    outs: List<Out>,
    selects: List<Select>,
    keys: List<Key>,
    params: List<Base>,
    rows: List<Row>,
}

impl Drop for Made {
    fn drop(self) {
        let Made {
            alloc: _,
            scalars: _,
            froms: _,
            outs: _,
            selects: _,
            keys: _,
            params: _,
            rows: _,
        } = self;
    }
}

impl Made {
    /// Nothing yet.
    pub fn new(alloc: Global) -> Made {
        Made {
            alloc,
            scalars: List::new(alloc),
            froms: List::new(alloc),
            outs: List::new(alloc),
            selects: List::new(alloc),
            keys: List::new(alloc),
            params: List::new(alloc),
            rows: List::new(alloc),
        }
    }

    /// Takes a word, and tells whether it makes anything:
    /// - `1`, `true`, `false` and `text:ab` are literals, `1.a` the column `a` of generator 1, `param:1` a parameter,
    /// - `+`, `=`, `and`, `not` and so on are operations on the scalars before them, and so is `case`,
    /// - `t@1` is a generator of number 1 over the table `t`, `as:m` a column of what is selected, and `select` makes a select
    ///   of these and of the condition before it; `exists` whether the last select gives a row,
    /// - `asc:m` and `desc:m` are keys, `give` makes the literal before it a parameter, and `rows:3` makes three rows of the two
    ///   numbers before it.
    pub fn take(&mut self, word: &str) -> Result<bool, NoMemory> {
        match word {
            "true" => self.put_base(Base::Bool(true)),
            "false" => self.put_base(Base::Bool(false)),
            "select" => self.select(),
            "exists" => self.exists(),
            "case" => self.choose(),
            "give" => self.give(),
            "neg" => self.operate_on_one(SqlOp::Neg),
            "not" => self.operate_on_one(SqlOp::Not),
            _ => match op_of(word) {
                Some(op) => self.operate_on_two(op),
                None => self.take_part(word),
            },
        }
    }

    /// Takes a word with a number, a name or a label in it.
    fn take_part(&mut self, word: &str) -> Result<bool, NoMemory> {
        if let Ok(number) = word.parse::<i64>() {
            return self.put_base(Base::Int(number));
        }
        if let Some((number, label)) = word.split_once('.') {
            return self.put_column(number, label);
        }
        if let Some((table, number)) = word.split_once('@') {
            return self.put_from(table, number);
        }
        match word.split_once(':') {
            Some((form, label)) => self.take_labelled(form, label),
            None => Ok(false),
        }
    }

    /// Takes a word by what stands before and behind its colon.
    fn take_labelled(&mut self, form: &str, label: &str) -> Result<bool, NoMemory> {
        match form {
            "text" => self.put_text(label),
            "param" => self.put(Scalar::Param(label.parse::<u32>().unwrap_or(0))),
            "as" => self.put_out(label),
            "asc" => self.put_key(label, false),
            "desc" => self.put_key(label, true),
            "rows" => self.put_rows(label.parse::<u32>().unwrap_or(0)),
            _ => Ok(false),
        }
    }

    /// The scalar at the end, and `TRUE` where there is none.
    pub fn take_scalar(&mut self) -> Scalar {
        match self.scalars.pop() {
            Some(scalar) => scalar,
            None => Scalar::Lit(Base::Bool(true)),
        }
    }

    /// The query of the selects and the keys.
    pub fn take_query(&mut self) -> Sql {
        let selects = mem::replace(&mut self.selects, List::new(self.alloc));
        let keys = mem::replace(&mut self.keys, List::new(self.alloc));
        Sql { selects, keys }
    }

    /// The rows.
    pub fn take_rows(&mut self) -> List<Row> {
        mem::replace(&mut self.rows, List::new(self.alloc))
    }

    /// The parameters.
    pub fn params(&self) -> &[Base] {
        self.params.as_slice()
    }

    fn put(&mut self, scalar: Scalar) -> Result<bool, NoMemory> {
        self.scalars.push(scalar)?;
        Ok(true)
    }

    fn put_base(&mut self, base: Base) -> Result<bool, NoMemory> {
        self.put(Scalar::Lit(base))
    }

    fn put_text(&mut self, text: &str) -> Result<bool, NoMemory> {
        let text = Text::from_str(self.alloc, text)?;
        self.put_base(Base::Text(text))
    }

    fn put_column(&mut self, number: &str, label: &str) -> Result<bool, NoMemory> {
        let label = Text::from_str(self.alloc, label)?;
        self.put(Scalar::Column(number.parse::<u32>().unwrap_or(0), label))
    }

    fn operate_on_one(&mut self, op: SqlOp) -> Result<bool, NoMemory> {
        let mut operands = List::new(self.alloc);
        operands.push(self.take_scalar())?;
        self.put(Scalar::Op(op, operands))
    }

    fn operate_on_two(&mut self, op: SqlOp) -> Result<bool, NoMemory> {
        let second = self.take_scalar();
        let mut operands = List::new(self.alloc);
        operands.push(self.take_scalar())?;
        operands.push(second)?;
        self.put(Scalar::Op(op, operands))
    }

    fn choose(&mut self) -> Result<bool, NoMemory> {
        let alloc = self.alloc;
        let other = Boxed::new(alloc, self.take_scalar())?;
        let one = Boxed::new(alloc, self.take_scalar())?;
        let condition = Boxed::new(alloc, self.take_scalar())?;
        self.put(Scalar::Case(condition, one, other))
    }

    fn put_from(&mut self, table: &str, number: &str) -> Result<bool, NoMemory> {
        let table = Text::from_str(self.alloc, table)?;
        let var = number.parse::<u32>().unwrap_or(0);
        self.froms.push(FromItem { var, table })?;
        Ok(true)
    }

    fn put_out(&mut self, label: &str) -> Result<bool, NoMemory> {
        let label = Text::from_str(self.alloc, label)?;
        let scalar = self.take_scalar();
        self.outs.push(Out { label, scalar })?;
        Ok(true)
    }

    fn put_key(&mut self, label: &str, desc: bool) -> Result<bool, NoMemory> {
        let label = Text::from_str(self.alloc, label)?;
        self.keys.push(Key { label, desc })?;
        Ok(true)
    }

    fn select(&mut self) -> Result<bool, NoMemory> {
        let froms = mem::replace(&mut self.froms, List::new(self.alloc));
        let outs = mem::replace(&mut self.outs, List::new(self.alloc));
        let cond = self.take_scalar();
        self.selects.push(Select { froms, cond, outs })?;
        Ok(true)
    }

    fn exists(&mut self) -> Result<bool, NoMemory> {
        let mut selects = List::new(self.alloc);
        if let Some(select) = self.selects.pop() {
            selects.push(select)?;
        }
        self.put(Scalar::Exists(selects))
    }

    fn give(&mut self) -> Result<bool, NoMemory> {
        let scalar = self.take_scalar();
        if let Scalar::Lit(base) = &scalar {
            self.params.push(copy_base(self.alloc, base)?)?;
        }
        Ok(true)
    }

    fn put_rows(&mut self, count: u32) -> Result<bool, NoMemory> {
        let b = number_of(&self.take_scalar());
        let a = number_of(&self.take_scalar());
        for _ in 0..count {
            self.rows.push(row_of(self.alloc, a, b)?)?;
        }
        Ok(true)
    }
}

/// The operation on two scalars that a word is, if it is one.
fn op_of(word: &str) -> Option<SqlOp> {
    match word {
        "+" => Some(SqlOp::Add),
        "-" => Some(SqlOp::Sub),
        "*" => Some(SqlOp::Mul),
        "++" => Some(SqlOp::Concat),
        "=" => Some(SqlOp::Eq),
        "<>" => Some(SqlOp::Ne),
        "<" => Some(SqlOp::Lt),
        "<=" => Some(SqlOp::Le),
        ">" => Some(SqlOp::Gt),
        ">=" => Some(SqlOp::Ge),
        "and" => Some(SqlOp::And),
        "or" => Some(SqlOp::Or),
        _ => None,
    }
}

/// The number that a scalar is, and 0 where it is none.
fn number_of(scalar: &Scalar) -> i64 {
    match scalar {
        Scalar::Lit(Base::Int(number)) => *number,
        _ => 0,
    }
}

/// The row with these numbers in its columns `a` and `b`.
fn row_of(alloc: Global, a: i64, b: i64) -> Result<Row, NoMemory> {
    let mut cells = List::new(alloc);
    cells.push(cell(alloc, "a", a)?)?;
    cells.push(cell(alloc, "b", b)?)?;
    Ok(Row { cells })
}

fn cell(alloc: Global, label: &str, number: i64) -> Result<Cell, NoMemory> {
    let label = Text::from_str(alloc, label)?;
    let value = Base::Int(number);
    Ok(Cell { label, value })
}
