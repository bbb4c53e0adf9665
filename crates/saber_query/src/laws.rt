// Laws of the grammar: functions that do nothing, whose contracts are the laws.
ghost use Rattle.std.specs.Prelude.{◌≡◌, ◌≤◌, ◌⊎◌, ◌↔◌, Result, ℕ, List, length, map, Ok};
ghost use Rattle.saber_query.specs.declared.token.Token.{Token};
ghost use Rattle.saber_query.specs.declared.token.Placed.{Placed};
ghost use Rattle.saber_query.specs.Lexing.{lexed_text};
ghost use Rattle.saber_query.specs.Reading.{token_of};
ghost use Rattle.saber_query.specs.declared.fault.Cause.{Cause};
ghost use Rattle.saber_query.specs.Parsed.{Parsed, IsParsed};
ghost use Rattle.saber_query.specs.Means.{MeansTree, TextFault};
ghost use Rattle.saber_query.specs.declared.fault.QueryFault.{QueryFault};
ghost use Rattle.saber_query.specs.Longest.{Matches};
ghost use Rattle.saber_query.specs.Real.{AllReal};
ghost use Rattle.saber_query.specs.Trees.{Query};
ghost use Rattle.saber_query.specs.Words.{words};
ghost use Rattle.saber_query.specs.Spelling.{spelled_text, HasTokens};

/// Tokens that a text can have, written with one space between, are read back as they were.
#[tactic(auto, using(crate::proofs::LexBack::spelled_lexes))]
pub fn spelled_tokens_are_read_back()
    ensures { (ts : List Token) → AllReal ts → HasTokens (spelled_text ts) ts }
{}

/// No two trees have the same words, so a text means one tree at most.
#[tactic(auto, using(crate::proofs::Unique::one_tree))]
pub fn words_have_one_tree()
    ensures { (q r : Query) → words q ≡ words r → q ≡ r }
{}

/// The tokens of a text are ones that a text can have, and no more than it has bytes.
pub fn tokens_are_real()
    ensures { (text : List ℕ) (ps : List Placed) → Matches 0 text (Ok ps) → (length ps ≤ length text) × AllReal (map token_of ps) }
{}

/// Each text means a query or has a fault: there is none of which nothing is said.
pub fn a_text_means_a_query_or_has_a_fault()
    ensures { (text : List ℕ) → ((q : Parsed) × IsParsed q.select q.starts × MeansTree text q)
        ⊎ ((byte : ℕ) × (cause : Cause) × TextFault cause byte text) }
{}

/// What the lexer reads byte by byte, the tokens of a text or its first bad one, are those of
/// longest match: these and no others.
pub fn tokens_are_of_longest_match()
    ensures { (text : List ℕ) (r : Result (List Placed) QueryFault) → (lexed_text text ≡ r) ↔ Matches 0 text r }
{}
