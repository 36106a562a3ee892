ghost use Rattle.std.specs.Prelude.{◌≡◌};
ghost use Rattle.answer_core.specs.Command.{at_most, begins_in_vain, cell_of, command_in, command_in_text, command_of_one, command_of_three, command_of_two, number_in, place_in};

/// What words ask for, as those behind the program's name.
#[derive(Clone, Copy, Debug)]
pub enum Command {
    /// The answer to the request that the source has.
    Answer,
    /// The element of a formula's value at a row and a column, counted from 1, by the request that the source has.
    Cell { row: u32, column: u32 },
    /// A line on the answer to the request that a number makes.
    Generate(u32),
}

impl Command {
    /// The command that the words are; `None` where they are none.
    pub(crate) fn from_words(words: &[String]) -> Option<Command>
        ensures { result ≡ command_in words.now }
    {
        match words {
            [word] => command_of_one(word.as_str()),
            [word, number] => command_of_two(word.as_str(), number.as_str()),
            [word, row, column] => command_of_three(word.as_str(), row.as_str(), column.as_str()),
            _ => None,
        }
    }

    /// The command that the words of a text are, between each two of which a space stands.
    pub fn from_text(text: &str) -> Option<Command>
        ensures { result ≡ command_in_text text.now }
    {
        let Some((word, behind)) = text.split_once(' ') else {
            return command_of_one(text);
        };
        let Some((first, last)) = behind.split_once(' ') else {
            return command_of_two(word, behind);
        };
        match last.split_once(' ') {
            Some(_) => None,
            None => command_of_three(word, first, last),
        }
    }
}

fn command_of_one(word: &str) -> Option<Command>
    ensures { result ≡ command_of_one word.now }
{
    match word {
        "answer" => Some(Command::Answer),
        _ => None,
    }
}

fn command_of_two(word: &str, number: &str) -> Option<Command>
    ensures { result ≡ command_of_two word.now number.now }
{
    match word {
        "generate" => number_in(999999, number).map(Command::Generate),
        _ => None,
    }
}

fn command_of_three(word: &str, row: &str, column: &str) -> Option<Command>
    ensures { result ≡ command_of_three word.now row.now column.now }
{
    match word {
        "cell" => cell_of(place_in(row), place_in(column)),
        _ => None,
    }
}

fn cell_of(row: Option<u32>, column: Option<u32>) -> Option<Command>
    ensures { result ≡ cell_of row column }
{
    match (row, column) {
        (Some(row), Some(column)) => Some(Command::Cell { row, column }),
        _ => None,
    }
}

/// The row or column that a word is, from 1.
fn place_in(word: &str) -> Option<u32>
    ensures { result ≡ place_in word.now }
{
    match number_in(u32::MAX, word) {
        Some(0) => None,
        number => number,
    }
}

/// The number that a word is, at most so large: digits alone, and no 0 before others.
fn number_in(most: u32, word: &str) -> Option<u32>
    ensures { result ≡ number_in most word.now }
{
    if begins_in_vain(word.as_bytes()) {
        return None;
    }
    match word.parse::<u32>() {
        Ok(number) => at_most(most, number),
        Err(_) => None,
    }
}

fn at_most(most: u32, number: u32) -> Option<u32>
    ensures { result ≡ at_most most number }
{
    if number <= most { Some(number) } else { None }
}

/// Whether a word begins with a sign, or with a 0 before others.
fn begins_in_vain(word: &[u8]) -> bool
    ensures { result ≡ begins_in_vain word.now }
{
    matches!(word, [b'+', ..] | [b'0', _, ..])
}
