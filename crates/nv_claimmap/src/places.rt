//! Where the words of the map stand in its table. Word 0 is the cursor, then come the words of the first set and those
//! of the second. Fifteen idle words stand behind the cursor and behind the first set, so that the three parts are 128
//! bytes from one another and no two of them share a cache line.

ghost use Rattle.std.specs.Prelude.{◌≡◌, ◌+◌, ◌*◌, ◌<◌, ◌^◌};

/// The place of the cursor.
pub(crate) const CURSOR: usize = 0;

/// Where the first set begins.
pub(crate) const FIRST: usize = 16;

/// Where the second set begins, if each set has this many words.
pub(crate) fn second_from(words: usize) -> usize
    requires { words < 2 ^ 60 }
    ensures { result ≡ words + 31 }
{
    FIRST + words + 15
}

/// How many words the table has, if each set has this many.
pub(crate) fn table_words(words: usize) -> usize
    requires { words < 2 ^ 60 }
    ensures { result ≡ 2 * words + 31 }
{
    second_from(words) + words
}
