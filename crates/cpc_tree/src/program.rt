//! The trees of a program: each node with its place, each name by its number in the program's table.
ghost use Rattle.std.specs.Prelude.{◌≡◌, IfOk, map, option_map};
ghost use Rattle.cpc_tree.specs.Erase as E;
ghost use Rattle.cpc_tree.specs.Erase.{type_of, expr_of};
ghost use Rattle.cpc_tree.specs.Syntax.{is_cps_mode, text_in};
ghost use Rattle.cpc_tree.specs.Typing as T;
ghost use Rattle.cpc_tree.specs.Typing.{APlace};

use cpc_base::{Name, Names, NoMemory, Place};
use cpc_num::{Kind, Op};
use std::alloc::Global;
use std::marker::Model;

// What a tree owns is let go of here and not by a derive: a crate that lets go of one then calls this, and does not prove
// it again in each function that may end while it owns one.

/// A name where it is written. `place` is that of its first byte.
#[derive(Clone, Copy)]
pub struct Word {
    pub place: Place,
    pub name: Name,
}

/// A unary operator (C11 6.5.3): `-`, `+`, `!`, `~`, `*` and `&`.
#[derive(Clone, Copy)]
pub enum UnaryOp {
    Minus,
    Plus,
    Not,
    Complement,
    Dereference,
    AddressOf,
}

/// How a function runs.
#[derive(Clone, Copy)]
pub enum Mode {
    /// A function of the host, of which there are prototypes alone.
    Extern,
    /// An ordinary function: it never waits.
    Native,
    /// A function that may wait; it is called from such functions, or started as a thread.
    Cps,
    /// A function that may run beside the others, in a worker, on a copy of cells.
    Detached,
}

impl Mode {
    /// Whether the functions of the mode may wait.
    pub fn is_cps(self) -> bool
        ensures { result ≡ is_cps_mode self }
    {
        match self {
            Mode::Cps => true,
            Mode::Extern | Mode::Native | Mode::Detached => false,
        }
    }
}

/// A type of the language (C11 6.2.5).
pub enum CType {
    Void,
    /// An integer type.
    Int(Kind),
    /// `cpc_condvar`, a condition on which threads wait.
    Condvar,
    Pointer(Box<CType>),
    /// A pointer to a function.
    Code {
        result: Box<CType>,
        parameters: Vec<CType>,
    },
    /// A struct, by its tag.
    Struct(Name),
    /// An array, and how many elements it has.
    Array(Box<CType>, u64),
}

impl Drop for CType {
    fn drop(self) {
        match self {
            CType::Void => {}
            CType::Int(_) => {}
            CType::Condvar => {}
            CType::Pointer(to) => drop(to),
            CType::Code { result, parameters } => {
                drop(result);
                drop(parameters);
            }
            CType::Struct(_) => {}
            CType::Array(element, _) => drop(element),
        }
    }
}

impl CType {
    /// Whether the type is scalar: a value of it fills one cell.
    pub fn is_scalar(&self) -> bool
        ensures { (names : E.Names) → result ≡ T.is_scalar (type_of names self.now) }
    {
        match self {
            CType::Int(_) | CType::Condvar | CType::Pointer(_) | CType::Code { .. } => true,
            CType::Void | CType::Struct(_) | CType::Array(_, _) => false,
        }
    }

    /// What a pointer type points to, as a part of it; of any other type nothing.
    pub fn pointee(&self) -> Option<&CType>
        ensures { (names : E.Names) → option_map (λ to. type_of names to.now) result ≡ T.target (type_of names self.now) }
    {
        match self {
            CType::Pointer(to) => Some(to),
            _ => None,
        }
    }

    /// What a pointer type points to; of any other type nothing.
    pub fn target(self) -> Option<CType>
        ensures { (names : E.Names) → option_map (type_of names) result ≡ T.target (type_of names self) }
    {
        match self {
            CType::Pointer(to) => Some(Box::into_inner(to)),
            _ => None,
        }
    }

    /// The type of a pointer to a place of a type: to an array's element where it is an array (C11 6.3.2.1). Where there is
    /// no memory for it, `NoMemory`.
    pub fn pointer(self, alloc: Global) -> Result<CType, NoMemory>
        ensures { IfOk result (λ pointer. (names : E.Names) → type_of names pointer ≡ T.pointer_type (type_of names self)) }
    {
        match self {
            CType::Array(element, _) => Ok(CType::Pointer(element)),
            of => Ok(CType::Pointer(Box::new(alloc, of)?)),
        }
    }

    /// The type of what a place of the type gives where it is used as a value: a pointer to the element of an array
    /// (C11 6.3.2.1), and nothing of a struct.
    pub fn read(self) -> Option<CType>
        ensures { (names : E.Names) → option_map (type_of names) result ≡ T.used (APlace (type_of names self)) }
    {
        match self {
            CType::Array(element, _) => Some(CType::Pointer(element)),
            CType::Struct(_) => None,
            of => Some(of),
        }
    }

    /// What a function of the type gives and what it takes; of any other type nothing.
    #[tactic(auto, using(std::proofs::lemmas::Grind::common_steps, crate::proofs::Codes::code_given))]
    pub fn into_code(self) -> Option<(Box<CType>, Vec<CType>)>
        ensures { (names : E.Names) → option_map (λ code. T.function_type (type_of names code.0.value) (map (type_of names) code.1.items)) result ≡ T.code_type (type_of names self) }
    {
        match self {
            CType::Code { result, parameters } => Some((result, parameters)),
            _ => None,
        }
    }
}

impl Expr {
    /// The bytes of a string; of any other expression nothing.
    pub fn text(&self) -> Option<&[u8]>
        ensures { (names : E.Names) → option_map (λ bytes. bytes.now) result ≡ text_in (expr_of names self.now) }
    {
        match self {
            Expr::Text { bytes, .. } => Some(bytes),
            _ => None,
        }
    }
}

/// An expression (C11 6.5). `place` is that of the first byte of its literal or of its operator: of `Index`, `CallIn`
/// and `Cast` that of the opening bracket, of `Choose` that of `?`. Parentheses leave no trace.
pub enum Expr {
    Name(Word),
    Integer {
        place: Place,
        kind: Kind,
        value: i128,
    },
    Character {
        place: Place,
        value: i128,
    },
    Text {
        place: Place,
        bytes: Vec<u8>,
    },
    Unary {
        place: Place,
        op: UnaryOp,
        operand: Box<Expr>,
    },
    Binary {
        place: Place,
        op: Op,
        left: Box<Expr>,
        right: Box<Expr>,
    },
    And {
        place: Place,
        left: Box<Expr>,
        right: Box<Expr>,
    },
    Or {
        place: Place,
        left: Box<Expr>,
        right: Box<Expr>,
    },
    Choose {
        place: Place,
        test: Box<Expr>,
        yes: Box<Expr>,
        no: Box<Expr>,
    },
    Cast {
        place: Place,
        target: CType,
        operand: Box<Expr>,
    },
    SizeOf {
        place: Place,
        target: CType,
    },
    Index {
        place: Place,
        operand: Box<Expr>,
        index: Box<Expr>,
    },
    Member {
        place: Place,
        operand: Box<Expr>,
        field: Word,
    },
    Arrow {
        place: Place,
        operand: Box<Expr>,
        field: Word,
    },
    CallIn {
        place: Place,
        function: Box<Expr>,
        arguments: Vec<Expr>,
    },
}

impl Drop for Expr {
    fn drop(self) {
        match self {
            Expr::Name(_) => {}
            Expr::Integer {
                place: _,
                kind: _,
                value: _,
            } => {}
            Expr::Character { place: _, value: _ } => {}
            Expr::Text { place: _, bytes } => drop(bytes),
            Expr::Unary {
                place: _,
                op: _,
                operand,
            } => drop(operand),
            Expr::Binary {
                place: _,
                op: _,
                left,
                right,
            } => {
                drop(left);
                drop(right);
            }
            Expr::And {
                place: _,
                left,
                right,
            } => {
                drop(left);
                drop(right);
            }
            Expr::Or {
                place: _,
                left,
                right,
            } => {
                drop(left);
                drop(right);
            }
            Expr::Choose {
                place: _,
                test,
                yes,
                no,
            } => {
                drop(test);
                drop(yes);
                drop(no);
            }
            Expr::Cast {
                place: _,
                target,
                operand,
            } => {
                drop(target);
                drop(operand);
            }
            Expr::SizeOf { place: _, target } => drop(target),
            Expr::Index {
                place: _,
                operand,
                index,
            } => {
                drop(operand);
                drop(index);
            }
            Expr::Member {
                place: _,
                operand,
                field: _,
            } => drop(operand),
            Expr::Arrow {
                place: _,
                operand,
                field: _,
            } => drop(operand),
            Expr::CallIn {
                place: _,
                function,
                arguments,
            } => {
                drop(function);
                drop(arguments);
            }
        }
    }
}

/// An expression that a statement or a global has: what it tests, writes to, calls, gives or starts with.
///
/// It is a type of its own, seen as its expression, since what a statement holds is told in full wherever a function holds the statement.
pub struct Operand {
    expr: Expr,
}

impl Drop for Operand {
    fn drop(self) {
        let Operand { expr } = self;
        drop(expr);
    }
}

impl Model for Operand {
    ghost use Rattle.cpc_tree.specs.declared.program.Expr as GExpr;
    ghost use Rattle.cpc_tree.specs.contracts.program.Expr as contracts;
    ghost use Rattle.std.specs.Coded.{codes};

    ghost Value = { GExpr.Expr };

    ghost view = { λ s. s.expr };

    ghost coded = { Prim.hlevel (codes, contracts.the_row.coded) };
}

impl Operand {
    /// This expression.
    pub fn new(expr: Expr) -> Operand
        ensures { result ≡ expr }
    {
        Operand { expr }
    }

    /// The expression.
    pub fn expr(&self) -> &Expr
        ensures { result.now ≡ self.now }
    {
        &self.expr
    }
}

/// A statement (C11 6.8). `place` is that of its first byte.
///
/// `operator` is the place of the assignment's operator, of `=` before a call or a section; where an initialiser is such
/// a call it is the declared name's, and where there is no place for the value it is the statement's own.
pub enum Statement {
    Block {
        place: Place,
        inner: Vec<Statement>,
    },
    Empty {
        place: Place,
    },
    /// A local declared. One whose whole initialiser is a call or a section has no start value: the call follows.
    Declare {
        place: Place,
        word: Word,
        of: CType,
        start: Option<Operand>,
    },
    /// `target op= value`, or `target = value` without an operator. `x++` and `++x` are `x += 1`.
    Assign {
        place: Place,
        operator: Place,
        target: Operand,
        op: Option<Op>,
        value: Operand,
    },
    /// A call that is a whole statement or a whole right side.
    Call {
        place: Place,
        operator: Place,
        target: Option<Operand>,
        function: Operand,
        arguments: Vec<Expr>,
    },
    /// `cpc_detached function(arguments)`: a section. `keyword` is the place of `cpc_detached`.
    Detach {
        place: Place,
        operator: Place,
        keyword: Place,
        target: Option<Operand>,
        function: Word,
        arguments: Vec<Expr>,
    },
    /// `cpc_spawn function(arguments);`
    Spawn {
        place: Place,
        function: Word,
        arguments: Vec<Expr>,
    },
    If {
        place: Place,
        test: Operand,
        yes: Box<Statement>,
        no: Option<Box<Statement>>,
    },
    While {
        place: Place,
        test: Operand,
        body: Box<Statement>,
    },
    DoWhile {
        place: Place,
        body: Box<Statement>,
        test: Operand,
    },
    /// `for`, whose first part is no statement, or one, or declarations with what they start with.
    For {
        place: Place,
        first: Vec<Statement>,
        test: Option<Operand>,
        step: Option<Box<Statement>>,
        body: Box<Statement>,
    },
    Goto {
        place: Place,
        label: Word,
    },
    /// A label, whose place is that of its name, and the statement that it is put before.
    Label {
        label: Word,
        inner: Box<Statement>,
    },
    Break {
        place: Place,
    },
    Continue {
        place: Place,
    },
    Return {
        place: Place,
        value: Option<Operand>,
    },
}

impl Drop for Statement {
    fn drop(self) {
        match self {
            Statement::Block { place: _, inner } => drop(inner),
            Statement::Empty { place: _ } => {}
            Statement::Declare {
                place: _,
                word: _,
                of,
                start,
            } => {
                drop(of);
                drop(start);
            }
            Statement::Assign {
                place: _,
                operator: _,
                target,
                op: _,
                value,
            } => {
                drop(target);
                drop(value);
            }
            Statement::Call {
                place: _,
                operator: _,
                target,
                function,
                arguments,
            } => {
                drop(target);
                drop(function);
                drop(arguments);
            }
            Statement::Detach {
                place: _,
                operator: _,
                keyword: _,
                target,
                function: _,
                arguments,
            } => {
                drop(target);
                drop(arguments);
            }
            Statement::Spawn {
                place: _,
                function: _,
                arguments,
            } => drop(arguments),
            Statement::If {
                place: _,
                test,
                yes,
                no,
            } => {
                drop(test);
                drop(yes);
                drop(no);
            }
            Statement::While {
                place: _,
                test,
                body,
            } => {
                drop(test);
                drop(body);
            }
            Statement::DoWhile {
                place: _,
                body,
                test,
            } => {
                drop(body);
                drop(test);
            }
            Statement::For {
                place: _,
                first,
                test,
                step,
                body,
            } => {
                drop(first);
                drop(test);
                drop(step);
                drop(body);
            }
            Statement::Goto { place: _, label: _ } => {}
            Statement::Label { label: _, inner } => drop(inner),
            Statement::Break { place: _ } => {}
            Statement::Continue { place: _ } => {}
            Statement::Return { place: _, value } => drop(value),
        }
    }
}

/// A parameter, which a prototype may leave unnamed.
#[derive(Drop)]
pub struct Parameter {
    pub word: Option<Word>,
    pub of: CType,
}

/// A variable with its type, as a field of a struct.
#[derive(Drop)]
pub struct Field {
    pub word: Word,
    pub of: CType,
}

/// A function with its body, which is a Block. `place` is that of its first byte, `word` its name.
pub struct Function {
    pub place: Place,
    pub mode: Mode,
    pub word: Word,
    pub result: CType,
    pub parameters: Vec<Parameter>,
    pub body: Statement,
}

impl Drop for Function {
    fn drop(self) {
        let Function {
            place: _,
            mode: _,
            word: _,
            result,
            parameters,
            body,
        } = self;
        drop(result);
        drop(parameters);
        drop(body);
    }
}

/// A part of a program (C11 6.9). A declaration of several declarators is several parts.
pub enum Item {
    Struct {
        tag: Word,
        fields: Vec<Field>,
    },
    /// A global variable, and what it starts with: an integer literal with or without a minus, a character or a string.
    Global {
        word: Word,
        of: CType,
        start: Option<Operand>,
    },
    /// A function declared. `place` is that of its first byte.
    Prototype {
        place: Place,
        mode: Mode,
        word: Word,
        result: CType,
        parameters: Vec<Parameter>,
    },
    Function(Function),
}

impl Drop for Item {
    fn drop(self) {
        match self {
            Item::Struct { tag: _, fields } => drop(fields),
            Item::Global { word: _, of, start } => {
                drop(of);
                drop(start);
            }
            Item::Prototype {
                place: _,
                mode: _,
                word: _,
                result,
                parameters,
            } => {
                drop(result);
                drop(parameters);
            }
            Item::Function(function) => drop(function),
        }
    }
}

/// A program. Its names are numbers of its table of texts; `end` is the place just after the last byte of its text.
pub struct Program {
    pub names: Names,
    pub items: Vec<Item>,
    pub end: Place,
}

impl Drop for Program {
    fn drop(self) {
        let Program {
            names,
            items,
            end: _,
        } = self;
        drop(names);
        drop(items);
    }
}
