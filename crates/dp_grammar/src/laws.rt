//! The laws of grammars, for every type of tokens, tests and values.

ghost use Rattle.std.specs.Prelude.{◌≡◌, Bool, List, Option, Result};
ghost use Rattle.dp_grammar.specs.Brackets.{Bracketing, IsBracketing, inside};
ghost use Rattle.dp_grammar.specs.Chain.{IsShape, before_mark, behind_mark, chain, shaped};
ghost use Rattle.dp_grammar.specs.Choice.{AreApart, either};
ghost use Rattle.dp_grammar.specs.Grammar.{Cause, Grammar, IsLawful};
ghost use Rattle.dp_grammar.specs.Leaf.{IsLeaf, IsOnly, Leaf, leaf, mark, tested_mark};
ghost use Rattle.dp_grammar.specs.Listed.{IsListing, Listing, listed};
ghost use Rattle.dp_grammar.specs.Many.{IsLink, IsRepeat, Link, Repeat, links, links_behind, many, step};
ghost use Rattle.dp_grammar.specs.Whole.{Says, whole};

/// Reading a whole text answers what the grammar says of it: the value that is spelled so and passes each test, or the
/// first refusal and its place. The grammar says nothing else of the text.
pub fn exactness<T, F, X>()
    ensures says { (g : Grammar T F X) → IsLawful g → (text : List T) → Says g text (whole g text) }
    ensures only { (g : Grammar T F X) → IsLawful g → (text : List T) (answer : Result X (Cause F × List T)) →
        Says g text answer → answer ≡ whole g text }
{}

/// Productions that are built of lawful ones are lawful.
pub fn productions<T, F, X, Y>()
    ensures leaf { (l : Leaf T F X) → IsLeaf l → IsLawful (leaf l) }
    ensures mark { (is : T → Bool) (t : T) → IsOnly is t → IsLawful (mark {T = T} {F = F} is t) }
    ensures tested_mark { (is : T → Bool) (t : T) (refusal : Option F) → IsOnly is t → IsLawful (tested_mark is t refusal) }
    ensures chain { (g : Grammar T F X) (next : X → Grammar T F Y) →
        IsLawful g → ((x : X) → IsLawful (next x)) → IsLawful (chain g next) }
    ensures shaped { (make : X → Y) (unmake : Y → X) (g : Grammar T F X) →
        IsShape make unmake → IsLawful g → IsLawful (shaped make unmake g) }
    ensures behind_mark { (m : Grammar T F (Unit {0})) (g : Grammar T F X) →
        IsLawful m → IsLawful g → IsLawful (behind_mark m g) }
    ensures before_mark { (g : Grammar T F X) (m : Grammar T F (Unit {0})) →
        IsLawful g → IsLawful m → IsLawful (before_mark g m) }
    ensures either { (test : T → Bool) (g : Grammar T F X) (h : Grammar T F Y) →
        AreApart test g h → IsLawful g → IsLawful h → IsLawful (either test g h) }
    ensures links { (link : Link T F X Y) → IsLink link → IsLawful (links link) }
    ensures many { (r : Repeat T F X Y) → IsRepeat r → IsLawful (many r) }
    ensures listed { (l : Listing T F X) → IsListing l → IsLawful (listed l) }

    // Here the kinds of brackets are of type Y.
    ensures inside { (b : Bracketing T X Y) → IsBracketing b → (opened : List Y) →
        IsLawful (inside {F = F} b opened) }

    // Links are read one by one.
    ensures unrolled { (link : Link T F X Y) → IsLink link → (kept : List X) (text : List T) →
        (links_behind link kept).read text ≡ step link kept text }
{}
