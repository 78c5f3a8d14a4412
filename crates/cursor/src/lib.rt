// AIDs, and a reading cursor by value over a lent file: each method hands back the field and the next cursor.
#![tactic(auto)]

ghost use Rattle.std.specs.Prelude.{◌≡◌, ◌≤◌, length};
ghost use Rattle.rules.specs.Bytes.{aid_length, u1, u2, aid, span, counted, same};
ghost use Rattle.rules.specs.Package.{standard};
ghost use Rattle.cursor.specs.Aids.{bytes_of, padded, Made};
ghost use Rattle.cursor.specs.Limits.{limits_of};
ghost use Rattle.cursor.specs.Says.{Says, Stops, itself, field_said, aid_said, skip_said};

// What a card series may change: the greatest depth, parent count and code length.
#[derive(Clone, Copy)]
pub struct Limits {
    pub depth: usize,
    pub parents: usize,
    pub code: usize,
}

impl Limits {
    // Document 01's values.
    pub fn standard() -> Limits
        ensures { limits_of result ≡ standard }
    {
        Limits {
            depth: 8,
            parents: 4,
            code: 4096,
        }
    }
}

// An AID: its bytes, zeros behind them, and how many they are.
#[derive(Clone, Copy)]
pub struct Aid {
    pub bytes: [u8; 16],
    pub len: usize,
}

// The bytes of `s`, at most 16, with zeros behind them.
fn with_zeros(s: &[u8]) -> [u8; 16]
    requires { length s.now ≤ 16 }
    ensures { result ≡ padded s.now }
{
    let mut bytes = [0u8; 16];
    bytes[..s.len()].copy_from_slice(s);
    bytes
}

impl Aid {
    // The least and the greatest length.
    pub const MIN: usize = 5;

    pub const MAX: usize = 16;

    // The AID with the bytes of `s`, if there are MIN to MAX.
    pub fn from_bytes(s: &[u8]) -> Option<Aid>
        ensures { Made s.now result }
    {
        let len = s.len();
        if len < Aid::MIN {
            return None;
        }
        if Aid::MAX < len {
            return None;
        }
        Some(Aid {
            bytes: with_zeros(s),
            len,
        })
    }

    // Have both the same length and the same bytes?
    // Kept: the fields are public, and `==` would compare what stands behind the bytes too.
    pub fn same(self, other: Aid) -> bool
        requires { (self.len ≤ 16) × (other.len ≤ 16) }
        ensures { result ≡ same (bytes_of self) (bytes_of other) }
    {
        let n = self.len;
        let m = other.len;
        let a = self.bytes;
        let b = other.bytes;
        fields::same_bytes(&a[..n], &b[..m])
    }
}

// A place in a file: how many bytes stand before it.
#[derive(Clone, Copy)]
pub struct FilePlace(pub usize);

// Where a reading stands.
#[derive(Clone, Copy)]
pub struct Cursor {
    pub at: FilePlace,
}

// Where the bytes of an AID start in a file, and how many they are.
#[derive(Clone, Copy)]
pub struct AidPlace {
    pub start: FilePlace,
    pub len: usize,
}

impl Cursor {
    // The cursor at a place.
    pub fn new(place: usize) -> Cursor
        ensures { result.at.0 ≡ place }
    {
        Cursor {
            at: FilePlace(place),
        }
    }

    // One byte, and the cursor behind it.
    pub fn u1(self, s: &[u8]) -> Option<(usize, Cursor)>
        ensures { Says itself u1 s.now self.at.0 (field_said result) }
    {
        let at = self.at.0;
        if at < s.len() {
            Some((usize::from(s[at]), Cursor::new(at + 1)))
        } else {
            None
        }
    }

    // Two bytes, the high one first, and the cursor behind them.
    pub fn u2(self, s: &[u8]) -> Option<(usize, Cursor)>
        ensures { Says itself u2 s.now self.at.0 (field_said result) }
    {
        let at = self.at.0;
        let len = s.len();
        if len < 2 {
            return None;
        }
        if len - 2 < at {
            return None;
        }
        Some((fields::u2_at(s, at), Cursor::new(at + 2)))
    }

    // So many bytes, read over.
    pub fn skip(self, s: &[u8], n: usize) -> Option<Cursor>
        requires { self.at.0 ≤ length s.now }
        ensures { Stops (span n) s.now self.at.0 (skip_said result) }
    {
        let at = self.at.0;
        if s.len() - at < n {
            return None;
        }
        Some(Cursor::new(at + n))
    }

    // An AID with its length, and the cursor behind it.
    pub fn aid(self, s: &[u8]) -> Option<(AidPlace, Cursor)>
        ensures { Says itself aid s.now self.at.0 (aid_said s.now result) }
    {
        let at = self.at.0;
        if s.len() <= at {
            return None;
        }
        let len = usize::from(s[at]);
        let start = at + 1;
        if len < Aid::MIN {
            return None;
        }
        if Aid::MAX < len {
            return None;
        }
        if s.len() - start < len {
            return None;
        }
        let place = AidPlace {
            start: FilePlace(start),
            len,
        };
        Some((place, Cursor::new(start + len)))
    }

    // A count of at most `most` and that many AIDs: the count, and the cursor behind the list.
    pub fn aids(self, s: &[u8], most: usize) -> Option<(usize, Cursor)>
        ensures { Says length (counted most u1 aid) s.now self.at.0 (field_said result) }
    {
        let (count, first) = self.u1(s)?;
        if most < count {
            return None;
        }
        let mut c = first;
        for _ in 0..count {
            let (_, next) = c.aid(s)?;
            c = next;
        }
        Some((count, c))
    }
}

// 3. Has an AID given to a call 5 to 16 bytes?
pub fn length_ok(aid: &[u8]) -> bool
    ensures { result ≡ aid_length (length aid.now) }
{
    Aid::from_bytes(aid).is_some()
}
