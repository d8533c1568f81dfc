//! Productions of one word.

ghost use Rattle.std.specs.Prelude.{◌≡◌};
ghost use Rattle.dp_grammar.specs.Choice.{begins};
ghost use Rattle.dp_grammar.specs.Leaf.{tested_mark};
ghost use Rattle.fz_model.specs.Items.{basic};
ghost use Rattle.fz_model.specs.Literals.{name, integer};
ghost use Rattle.fz_model.specs.Marks as grammar;
ghost use Rattle.fz_model.specs.Words.{mark_word};
ghost use Rattle.fz_items.specs.Gives.{IsHere, given};
ghost use Rattle.fz_items.specs.Seen as spec;
ghost use Rattle.fz_items.specs.Seen.{number_of, basic_text};

use crate::source::{Seen, Source};
use crate::stop::Cause;
use crate::text::{BasicWord, Number};
use fz_model::Fault;
use fz_token::{Keyword, Mark, TokenKind};

impl<'a> Source<'a> {
    /// Whether this keyword comes first.
    pub fn is_keyword(&self, keyword: Keyword) -> bool
        ensures { result ≡ begins (grammar.is_key keyword) self.now.left }
    {
        match self.word() {
            Some(
                Seen {
                    kind: TokenKind::Keyword(other),
                    ..
                },
            ) => other == keyword,
            _ => false,
        }
    }

    /// Whether this mark comes first.
    pub fn is_mark(&self, mark: Mark) -> bool
        ensures { result ≡ begins (spec.is_mark mark) self.now.left }
    {
        match self.word() {
            Some(
                Seen {
                    kind: TokenKind::Mark(other),
                    ..
                },
            ) => other == mark,
            _ => false,
        }
    }

    /// This keyword.
    pub fn keyword(&mut self, keyword: Keyword) -> Result<(), Cause>
        ensures reads { (grammar.keyword keyword).read self.old.left ≡ given (λ u. u) result self.new.left }
        ensures text { self.new.text ≡ self.old.text }
    {
        if !self.is_keyword(keyword) {
            return Err(Cause::Syntax);
        }
        self.advance();
        Ok(())
    }

    /// This mark.
    pub fn mark(&mut self, mark: Mark) -> Result<(), Cause>
        ensures reads { (spec.mark mark).read self.old.left ≡ given (λ u. u) result self.new.left }
        ensures text { self.new.text ≡ self.old.text }
    {
        self.mark_if(mark, None)
    }

    /// This mark, if the test that is given here does not refuse it.
    pub fn mark_if(&mut self, mark: Mark, test: Option<Fault>) -> Result<(), Cause>
        ensures reads { (tested_mark (spec.is_mark mark) (mark_word mark) test).read self.old.left ≡ given (λ u. u) result self.new.left }
        ensures text { self.new.text ≡ self.old.text }
    {
        if !self.is_mark(mark) {
            return Err(Cause::Syntax);
        }
        if let Some(fault) = test {
            return Err(Cause::Test(fault));
        }
        self.advance();
        Ok(())
    }

    /// The name that comes first. It is passed over once it has passed its test.
    pub fn name_here(&self) -> Result<&'a [u8], Cause>
        ensures { IsHere (λ b. b.now) (λ b. b) name self.now.left result }
    {
        match self.word() {
            Some(
                Seen {
                    kind: TokenKind::Name,
                    bytes,
                    ..
                },
            ) => Ok(bytes),
            _ => Err(Cause::Syntax),
        }
    }

    /// The integer that comes first. It is passed over once it has passed its test.
    pub fn integer_here(&self) -> Result<Number, Cause>
        ensures { IsHere number_of (λ n. n.0) integer self.now.left result }
    {
        match self.word() {
            Some(
                Seen {
                    kind: TokenKind::Integer(value),
                    dotted,
                    ..
                },
            ) => Ok(Number { value, dotted }),
            _ => Err(Cause::Syntax),
        }
    }

    /// The literal or name that comes first. It is passed over once it has passed its test.
    pub fn basic_here(&self) -> Result<BasicWord<'a>, Cause>
        ensures { IsHere basic_text (λ t. t) basic self.now.left result }
    {
        match self.word() {
            Some(
                Seen {
                    kind: TokenKind::Keyword(Keyword::True),
                    ..
                },
            ) => Ok(BasicWord::Truth(true)),
            Some(
                Seen {
                    kind: TokenKind::Keyword(Keyword::False),
                    ..
                },
            ) => Ok(BasicWord::Truth(false)),
            Some(
                Seen {
                    kind: TokenKind::Integer(value),
                    dotted,
                    ..
                },
            ) => Ok(BasicWord::Whole(Number { value, dotted })),
            Some(
                Seen {
                    kind: TokenKind::Name,
                    bytes,
                    ..
                },
            ) => Ok(BasicWord::Name(bytes)),
            _ => Err(Cause::Syntax),
        }
    }
}
