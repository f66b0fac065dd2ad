// The names that a file publishes, and what an entry with a name does to the cells that it has.
ghost use Rattle.std.specs.Prelude.{◌≡◌, ◌≤◌};
ghost use Rattle.unicode_io.specs.Names.{agreeing, number_from, number_found, name_number, property_of, value_of};

// One byte more of a name of the list: how many bytes of the word agree so far, or one more than it has.
fn agree(word: &[u8], at: usize, b: u8) -> usize
    ensures { result ≡ agreeing word.now at b }
{
    if at < word.len() {
        if word[at] == b {
            return at + 1;
        }
        return word.len() + 1;
    }
    word.len() + 1
}

// The number of a word in a list of names, each followed by a space.
#[tactic(auto, using(crate::specs::Names::Laws::scanning_begins, crate::specs::Names::Laws::scanning_found, crate::specs::Names::Laws::scanning_after, crate::specs::Names::Laws::scanning_within, crate::specs::Names::Laws::scanning_ends))]
fn number_in(list: &[u8], word: &[u8]) -> Option<usize>
    ensures { result ≡ number_found (number_from word.now 1 0 list.now) }
{
    let mut number = 1;
    let mut at = 0;
    for b in list {
        if *b != b' ' {
            at = agree(word, at, *b);
            continue;
        }
        if at == word.len() {
            return Some(number);
        }
        number += 1;
        at = 0;
    }
    None
}

pub(crate) fn name_number(file: usize, word: &[u8]) -> Option<usize>
    ensures { result ≡ number_found (name_number file word.now) }
{
    match file {
        0 => number_in(
            b"CR LF Control Extend ZWJ L V T LV LVT Regional_Indicator Prepend SpacingMark ",
            word,
        ),
        1 => number_in(b"A H N Na F W ", word),
        2 => number_in(
            b"Emoji Emoji_Presentation Emoji_Modifier Emoji_Modifier_Base Emoji_Component Extended_Pictographic ",
            word,
        ),
        _ => number_in(
            b"Alphabetic Case_Ignorable Cased Changes_When_Casefolded Changes_When_Casemapped Changes_When_Lowercased Changes_When_Titlecased Changes_When_Uppercased Default_Ignorable_Code_Point Grapheme_Base Grapheme_Extend Grapheme_Link ID_Continue ID_Start Lowercase Math Uppercase XID_Continue XID_Start InCB;Linker InCB;Consonant InCB;Extend ",
            word,
        ),
    }
}

// The property that a name of a file belongs to.
pub(crate) fn property(file: usize, name: usize) -> usize
    ensures { result ≡ property_of file name }
{
    match file {
        0 | 1 => 0,
        _ => name.min(20),
    }
}

// What the name adds to a cell.
pub(crate) fn value(file: usize, name: usize) -> u32
    requires { name ≤ 22 }
    ensures { result ≡ value_of file name }
{
    match (file, name) {
        (0, _) => name as u32,
        (1, 5..) => 16,
        (1, _) => 0,
        (2, 6) => 32,
        (2, _) => 0,
        (_, 20..) => 64 * (name - 19) as u32,
        _ => 0,
    }
}
