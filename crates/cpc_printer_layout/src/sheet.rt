//! Tokens that are to be printed, each with the blanks before it.
ghost use Rattle.std.specs.Prelude.{◌≡◌, [], ◌∷◌, ◌++◌, cond, OnOk};
ghost use Rattle.cpc_tree.specs.Erase.{Names, text_of};
ghost use Rattle.cpc_tree.specs.Tokens.{Word, Mark, Named};
ghost use Rattle.cpc_printer_layout.specs.Sheets.{lexeme_of, row_of};

use cpc_base::{Name, NoMemory};
use cpc_num::Kind;
use cpc_tree::token::{Keyword, Punctuator};
use std::alloc::Global;

/// A token that is printed.
pub enum Lexeme {
    Keyword(Keyword),
    Punctuator(Punctuator),
    Name(Name),
    /// A name for a parameter that has none and must have one.
    Filler,
    /// An integer constant with its type.
    Integer(Kind, i128),
    /// A character constant.
    Character(i128),
    /// A string literal, by its bytes without a final zero.
    Text(Vec<u8>),
}

impl Drop for Lexeme {
    fn drop(self) {
        match self {
            Lexeme::Keyword(_) => {}
            Lexeme::Punctuator(_) => {}
            Lexeme::Name(_) => {}
            Lexeme::Filler => {}
            Lexeme::Integer(_, _) => {}
            Lexeme::Character(_) => {}
            Lexeme::Text(part) => drop(part),
        }
    }
}

/// The blanks before a token. They are free: no token depends on them.
#[derive(Clone, Copy)]
pub(crate) enum Gap {
    None,
    Blank,
    /// A new line, and so many levels from its left.
    Line(usize),
    /// An empty line and a new line.
    Paragraph,
}

/// A token behind blanks.
#[derive(Drop)]
pub(crate) struct Piece {
    pub gap: Gap,
    pub lexeme: Lexeme,
}

/// The tokens so far, the blanks before the next one, and how far the lines are set in. A sheet that is tight has
/// brackets for the outermost pointers of parameters, in place of stars.
#[derive(Drop)]
pub struct Sheet {
    pub(crate) pieces: Vec<Piece>,
    gap: Gap,
    level: usize,
    pub is_tight: bool,
}

impl Sheet {
    /// A sheet with no tokens, in one of the two styles.
    pub fn new(alloc: Global, is_tight: bool) -> Sheet
        ensures row { (names : Names) → row_of names result ≡ [] }
        ensures style { result.is_tight ≡ is_tight }
    {
        Sheet {
            pieces: Vec::new(alloc),
            gap: Gap::None,
            level: 0,
            is_tight,
        }
    }

    /// Puts a token behind the others, after the blanks that were asked for. `NoMemory` is want of memory.
    pub fn put(&mut self, lexeme: Lexeme) -> Result<(), NoMemory>
        ensures row { OnOk result ((names : Names) → row_of names self.new ≡ row_of names self.old ++ lexeme_of names lexeme ∷ []) }
        ensures style { self.new.is_tight ≡ self.old.is_tight }
    {
        let gap = self.gap;
        self.gap = Gap::None;
        self.pieces.push(Piece { gap, lexeme })?;
        Ok(())
    }

    /// Puts a keyword behind the others. `NoMemory` is want of memory.
    pub fn word(&mut self, word: Keyword) -> Result<(), NoMemory>
        ensures row { OnOk result ((names : Names) → row_of names self.new ≡ row_of names self.old ++ Word word ∷ []) }
        ensures style { self.new.is_tight ≡ self.old.is_tight }
    {
        self.put(Lexeme::Keyword(word))
    }

    /// Puts a punctuator behind the others. `NoMemory` is want of memory.
    pub fn mark(&mut self, mark: Punctuator) -> Result<(), NoMemory>
        ensures row { OnOk result ((names : Names) → row_of names self.new ≡ row_of names self.old ++ Mark mark ∷ []) }
        ensures style { self.new.is_tight ≡ self.old.is_tight }
    {
        self.put(Lexeme::Punctuator(mark))
    }

    /// Puts a name behind the others. `NoMemory` is want of memory.
    pub fn name(&mut self, name: Name) -> Result<(), NoMemory>
        ensures row { OnOk result ((names : Names) → row_of names self.new ≡ row_of names self.old ++ Named (text_of names name) ∷ []) }
        ensures style { self.new.is_tight ≡ self.old.is_tight }
    {
        self.put(Lexeme::Name(name))
    }

    /// Puts a punctuator behind the others where it is needed. `NoMemory` is want of memory.
    pub fn mark_if(&mut self, is_needed: bool, mark: Punctuator) -> Result<(), NoMemory>
        ensures row { OnOk result ((names : Names) → row_of names self.new ≡ row_of names self.old ++ cond is_needed (Mark mark ∷ []) []) }
        ensures style { self.new.is_tight ≡ self.old.is_tight }
    {
        if is_needed {
            self.mark(mark)?;
        }
        Ok(())
    }

    /// Puts a punctuator with a blank on each side. `NoMemory` is want of memory.
    pub fn between(&mut self, mark: Punctuator) -> Result<(), NoMemory>
        ensures row { OnOk result ((names : Names) → row_of names self.new ≡ row_of names self.old ++ Mark mark ∷ []) }
        ensures style { self.new.is_tight ≡ self.old.is_tight }
    {
        self.blank();
        self.mark(mark)?;
        self.blank();
        Ok(())
    }

    /// Asks for a blank before the next token.
    pub fn blank(&mut self)
        ensures row { (names : Names) → row_of names self.new ≡ row_of names self.old }
        ensures style { self.new.is_tight ≡ self.old.is_tight }
    {
        self.gap = Gap::Blank;
    }

    /// Asks for a new line before the next token.
    pub fn line(&mut self)
        ensures row { (names : Names) → row_of names self.new ≡ row_of names self.old }
        ensures style { self.new.is_tight ≡ self.old.is_tight }
    {
        self.gap = Gap::Line(self.level);
    }

    /// Asks for a new line one level further left.
    pub fn label_line(&mut self)
        ensures row { (names : Names) → row_of names self.new ≡ row_of names self.old }
        ensures style { self.new.is_tight ≡ self.old.is_tight }
    {
        self.gap = Gap::Line(self.level.saturating_sub(1));
    }

    /// Asks for an empty line and a new line before the next token.
    pub fn paragraph(&mut self)
        ensures row { (names : Names) → row_of names self.new ≡ row_of names self.old }
        ensures style { self.new.is_tight ≡ self.old.is_tight }
    {
        self.gap = Gap::Paragraph;
    }

    /// Sets the next lines in by one level.
    pub fn set_in(&mut self)
        ensures row { (names : Names) → row_of names self.new ≡ row_of names self.old }
        ensures style { self.new.is_tight ≡ self.old.is_tight }
    {
        self.level = self.level.saturating_add(1);
    }

    /// Sets the next lines out by one level.
    pub fn set_out(&mut self)
        ensures row { (names : Names) → row_of names self.new ≡ row_of names self.old }
        ensures style { self.new.is_tight ≡ self.old.is_tight }
    {
        self.level = self.level.saturating_sub(1);
    }
}
