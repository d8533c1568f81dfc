//! Where a text is refused.

ghost use Rattle.std.specs.Prelude.{◌≡◌, length};
ghost use Rattle.fz_token.specs.Stream.{stream};
ghost use Rattle.fz_model.specs.ModelText as grammar;
ghost use Rattle.fz_model.specs.Words.{words};
ghost use Rattle.fz_items.specs.Answers as spec;
ghost use Rattle.fz_items.specs.Answers.{refusal_of};
ghost use Rattle.fz_items.specs.Gives.{cause_of};

use crate::refusal::ModelRefusal;
use crate::source::Source;
use crate::stop::Cause;
use fz_model::Fault;
use fz_token::TokenRefusal;

/// The refusal of a token.
pub fn token_refusal(refusal: TokenRefusal) -> ModelRefusal
    ensures { result ≡ spec.token_refusal refusal }
{
    match refusal {
        TokenRefusal::BadByte(at) => ModelRefusal::BadByte(at),
        TokenRefusal::Number(at) => ModelRefusal::Number(at),
        TokenRefusal::OpenString(at) => ModelRefusal::OpenString(at),
    }
}

/// The refusal of a word at this place.
fn word_refusal(cause: Cause, at: usize) -> ModelRefusal
    ensures { result ≡ spec.word_refusal (cause_of cause) at }
{
    match cause {
        Cause::Syntax => ModelRefusal::Syntax(at),
        Cause::Test(Fault::Unsupported) => ModelRefusal::Unsupported(at),
        Cause::Test(Fault::Unbounded) => ModelRefusal::Unbounded(at),
        Cause::Test(Fault::Unknown) => ModelRefusal::Unknown(at),
        Cause::Test(Fault::Declared) => ModelRefusal::Declared(at),
        Cause::Test(Fault::Kind) => ModelRefusal::Kind(at),
        Cause::Test(Fault::Limit) => ModelRefusal::Limit(at),
    }
}

impl Source<'_> {
    /// The cause, or that the first word is not supported where no production allows it.
    fn named_cause(&self, cause: Cause) -> Cause
        ensures { cause_of result ≡ grammar.named_cause (words self.now.text (stream self.now.text).tokens) (cause_of cause) self.now.left }
    {
        match cause {
            Cause::Test(_) => cause,
            Cause::Syntax => {
                if self.is_unsupported() {
                    Cause::Test(Fault::Unsupported)
                } else {
                    Cause::Syntax
                }
            }
        }
    }

    /// The refusal of the first word, or that of the tokens where no word is left.
    pub fn refusal(&self, cause: Cause) -> ModelRefusal
        ensures { result ≡ refusal_of (length self.now.text) (stream self.now.text) (grammar.named_cause (words self.now.text (stream self.now.text).tokens) (cause_of cause) self.now.left) self.now.left }
    {
        match self.place() {
            Ok(at) => word_refusal(self.named_cause(cause), at),
            Err(refusal) => token_refusal(refusal),
        }
    }
}
