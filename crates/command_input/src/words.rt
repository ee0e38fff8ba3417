//! From the words of the command line to a command.
ghost use Rattle.std.specs.Prelude.{◌≡◌, ◌≤◌, ◌^◌, ℕ, ℤ, List, [], ◌∷◌, codes, map, decimal, string_bytes, IfOk, OnErr, MatchOption};
ghost use Rattle.std.specs.Fmt.{signed_decimal};
ghost use Rattle.std.specs.Option.{option_copied, option_to_list};
ghost use Rattle.command_input.specs.Words.{HasForm, HasNoForm, IsDimension, IsExtent};

use crate::{BadWords, Command, PageRequest};
use geo_base::MAX_DIMS;
use itoa::Buffer;

/// The greatest number of members that may be asked for.
const MOST_MEMBERS: u64 = 1_000_000_000_000;

/// The command that the words ask for.
pub fn read_words(words: &[String]) -> Result<Command<'_>, BadWords>
    ensures form { IfOk result (HasForm (map string_bytes words.now)) }
    ensures none { OnErr result (HasNoForm (map string_bytes words.now)) }
{
    match words {
        [name] => read_alone(name),
        [name, number] => read_two(name, number),
        [name, first, second] => read_three(name, first, second),
        [name, most, budget, token] => read_four(name, most, budget, token),
        _ => Err(BadWords),
    }
}

// The word that stands alone.
fn read_alone<'a>(name: &String) -> Result<Command<'a>, BadWords>
    ensures form { IfOk result (HasForm (string_bytes name.now ∷ [])) }
    ensures none { OnErr result (HasNoForm (string_bytes name.now ∷ [])) }
{
    match name.as_str() {
        "show" => Ok(Command::Show),
        "judge" => Ok(Command::Judge),
        "check" => Ok(Command::Check),
        "draw" => Ok(Command::Draw),
        "to_json" => Ok(Command::ToJson),
        "from_json" => Ok(Command::FromJson),
        _ => Err(BadWords),
    }
}

// A word and a number.
fn read_two<'a>(name: &String, number: &String) -> Result<Command<'a>, BadWords>
    ensures form { IfOk result (HasForm (string_bytes name.now ∷ string_bytes number.now ∷ [])) }
    ensures none { OnErr result (HasNoForm (string_bytes name.now ∷ string_bytes number.now ∷ [])) }
{
    match name.as_str() {
        "first" => read_first(name, number),
        "load" => read_load(name, number),
        "why" => read_why(name, number),
        "first_json" => read_first_json(name, number),
        _ => Err(BadWords),
    }
}

// The word `first` and a number.
fn read_first<'a>(name: &String, most: &String) -> Result<Command<'a>, BadWords>
    requires { string_bytes name.now ≡ codes "first" }
    ensures form { IfOk result (HasForm (string_bytes name.now ∷ string_bytes most.now ∷ [])) }
    ensures none { OnErr result (HasNoForm (string_bytes name.now ∷ string_bytes most.now ∷ [])) }
{
    match read_budget(most.as_str()) {
        Some(n) => Ok(Command::First(n)),
        None => Err(BadWords),
    }
}

// The word `why` and a number.
fn read_why<'a>(name: &String, most: &String) -> Result<Command<'a>, BadWords>
    requires { string_bytes name.now ≡ codes "why" }
    ensures form { IfOk result (HasForm (string_bytes name.now ∷ string_bytes most.now ∷ [])) }
    ensures none { OnErr result (HasNoForm (string_bytes name.now ∷ string_bytes most.now ∷ [])) }
{
    match read_budget(most.as_str()) {
        Some(n) => Ok(Command::Why(n)),
        None => Err(BadWords),
    }
}

// The word `first_json` and a number.
fn read_first_json<'a>(name: &String, most: &String) -> Result<Command<'a>, BadWords>
    requires { string_bytes name.now ≡ codes "first_json" }
    ensures form { IfOk result (HasForm (string_bytes name.now ∷ string_bytes most.now ∷ [])) }
    ensures none { OnErr result (HasNoForm (string_bytes name.now ∷ string_bytes most.now ∷ [])) }
{
    match read_budget(most.as_str()) {
        Some(n) => Ok(Command::FirstJson(n)),
        None => Err(BadWords),
    }
}

// The word `load` and a dimension.
fn read_load<'a>(name: &String, dimension: &String) -> Result<Command<'a>, BadWords>
    requires { string_bytes name.now ≡ codes "load" }
    ensures form { IfOk result (HasForm
        (string_bytes name.now ∷ string_bytes dimension.now ∷ [])) }
    ensures none { OnErr result (HasNoForm
        (string_bytes name.now ∷ string_bytes dimension.now ∷ [])) }
{
    match read_dimension(dimension.as_str()) {
        Some(d) => Ok(Command::Load(d)),
        None => Err(BadWords),
    }
}

// A word and two others.
fn read_three<'a>(name: &String, first: &String, second: &String) -> Result<Command<'a>, BadWords>
    ensures form { IfOk result (HasForm
        (string_bytes name.now ∷ string_bytes first.now ∷ string_bytes second.now ∷ [])) }
    ensures none { OnErr result (HasNoForm
        (string_bytes name.now ∷ string_bytes first.now ∷ string_bytes second.now ∷ [])) }
{
    match name.as_str() {
        "make" => read_make(name, first, second),
        "all" => read_all(name, first, second, None),
        "best" => read_best(name, first, second),
        "check_best" => read_check_best(name, first, second),
        _ => Err(BadWords),
    }
}

// A word, two numbers and a token.
fn read_four<'a>(
    name: &String,
    most: &String,
    budget: &String,
    token: &'a String,
) -> Result<Command<'a>, BadWords>
    ensures form { IfOk result (HasForm (string_bytes name.now ∷ string_bytes most.now
        ∷ string_bytes budget.now ∷ string_bytes token.now ∷ [])) }
    ensures none { OnErr result (HasNoForm (string_bytes name.now ∷ string_bytes most.now
        ∷ string_bytes budget.now ∷ string_bytes token.now ∷ [])) }
{
    match name.as_str() {
        "all" => read_all(name, most, budget, Some(token.as_str())),
        _ => Err(BadWords),
    }
}

// The word `make`, a seed and a number.
fn read_make<'a>(name: &String, seed: &String, most: &String) -> Result<Command<'a>, BadWords>
    requires { string_bytes name.now ≡ codes "make" }
    ensures form { IfOk result (HasForm
        (string_bytes name.now ∷ string_bytes seed.now ∷ string_bytes most.now ∷ [])) }
    ensures none { OnErr result (HasNoForm
        (string_bytes name.now ∷ string_bytes seed.now ∷ string_bytes most.now ∷ [])) }
{
    if let Some(seed) = read_number(seed.as_str(), 0, 2_147_483_647) {
        if let Some(n) = read_budget(most.as_str()) {
            return Ok(Command::Make(seed as u32, n));
        }
    }
    Err(BadWords)
}

// The word `all`, two numbers, and a token where one is given.
fn read_all<'a>(
    name: &String,
    most: &String,
    budget: &String,
    token: Option<&'a str>,
) -> Result<Command<'a>, BadWords>
    requires { string_bytes name.now ≡ codes "all" }
    ensures form { IfOk result (HasForm (string_bytes name.now ∷ string_bytes most.now
        ∷ string_bytes budget.now ∷ option_to_list (option_copied token.entry))) }
    ensures none { OnErr result (HasNoForm (string_bytes name.now ∷ string_bytes most.now
        ∷ string_bytes budget.now ∷ option_to_list (option_copied token.entry))) }
{
    if let Some(most) = read_count(most.as_str(), 1_000_000) {
        if let Some(budget) = read_budget(budget.as_str()) {
            return Ok(Command::All(PageRequest {
                most,
                budget,
                token,
            }));
        }
    }
    Err(BadWords)
}

// The word `best`, a dimension and a number.
fn read_best<'a>(name: &String, dimension: &String, most: &String) -> Result<Command<'a>, BadWords>
    requires { string_bytes name.now ≡ codes "best" }
    ensures form { IfOk result (HasForm
        (string_bytes name.now ∷ string_bytes dimension.now ∷ string_bytes most.now ∷ [])) }
    ensures none { OnErr result (HasNoForm
        (string_bytes name.now ∷ string_bytes dimension.now ∷ string_bytes most.now ∷ [])) }
{
    if let Some(d) = read_dimension(dimension.as_str()) {
        if let Some(n) = read_budget(most.as_str()) {
            return Ok(Command::Best(d, n));
        }
    }
    Err(BadWords)
}

// The word `check_best`, a dimension and an end.
fn read_check_best<'a>(
    name: &String,
    dimension: &String,
    extent: &String,
) -> Result<Command<'a>, BadWords>
    requires { string_bytes name.now ≡ codes "check_best" }
    ensures form { IfOk result (HasForm
        (string_bytes name.now ∷ string_bytes dimension.now ∷ string_bytes extent.now ∷ [])) }
    ensures none { OnErr result (HasNoForm
        (string_bytes name.now ∷ string_bytes dimension.now ∷ string_bytes extent.now ∷ [])) }
{
    if let Some(d) = read_dimension(dimension.as_str()) {
        if let Some(e) = read_extent(extent.as_str()) {
            return Ok(Command::CheckBest(d, e));
        }
    }
    Err(BadWords)
}

// A dimension, counted from 1.
fn read_dimension(word: &str) -> Option<u8>
    ensures { MatchOption result ((d : ℕ) → word.now ≡ decimal d → IsDimension d → ⊥)
        (λ d. (word.now ≡ decimal d) × IsDimension d) }
{
    match read_count(word, MAX_DIMS as u64) {
        Some(d) => Some(d as u8),
        None => None,
    }
}

// An end in decimal digits without a leading zero, behind a minus where it is negative.
fn read_extent(word: &str) -> Option<i64>
    ensures { MatchOption result ((e : ℤ) → word.now ≡ signed_decimal e → IsExtent e → ⊥)
        (λ e. (word.now ≡ signed_decimal e) × IsExtent e) }
{
    let Ok(e) = word.parse::<i64>() else {
        return None;
    };
    let mut buffer = Buffer::new();
    if e >= -2_000_000 && e <= 3_000_000 && buffer.format(e) == word {
        Some(e)
    } else {
        None
    }
}

// A number of members.
fn read_budget(word: &str) -> Option<u64>
    ensures { MatchOption result ((n : ℕ) → word.now ≡ decimal n → 1 ≤ n → n ≤ 10 ^ 12 → ⊥)
        (λ n. (word.now ≡ decimal n) × (1 ≤ n) × (n ≤ 10 ^ 12)) }
{
    read_count(word, MOST_MEMBERS)
}

// A number from 1 on in decimal digits without a leading zero.
fn read_count(word: &str, most: u64) -> Option<u64>
    ensures { MatchOption result ((n : ℕ) → word.now ≡ decimal n → 1 ≤ n → n ≤ most → ⊥)
        (λ n. (word.now ≡ decimal n) × (1 ≤ n) × (n ≤ most)) }
{
    read_number(word, 1, most)
}

// A number between two others in decimal digits without a leading zero.
fn read_number(word: &str, least: u64, most: u64) -> Option<u64>
    ensures { MatchOption result ((n : ℕ) → word.now ≡ decimal n → least ≤ n → n ≤ most → ⊥)
        (λ n. (word.now ≡ decimal n) × (least ≤ n) × (n ≤ most)) }
{
    let Ok(n) = word.parse::<u64>() else {
        return None;
    };
    let mut buffer = Buffer::new();
    if n >= least && n <= most && buffer.format(n) == word {
        Some(n)
    } else {
        None
    }
}
