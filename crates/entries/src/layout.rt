// Where the entries of a page lie. A leaf's and an inner page's differ in size and in where they start alone.
ghost use Rattle.std.specs.Prelude.{◌≤◌};

use rules::{AT_COUNT, AT_KIND, CERT, CHILD, INNER_HEADER, LEAF, LEAF_HEADER};

// So many entries behind a header, all of one size, each with its key first.
#[derive(Clone, Copy)]
pub struct Entries {
    pub header: usize,
    pub size: usize,
    pub count: usize,
    pub ghost keyed: { 8 ≤ size },
}

impl Entries {
    ghost use Rattle.std.specs.Prelude.{◌≡◌, ◌+◌, ◌*◌, ◌^◌, ◌<◌, length, get_or};
    ghost use Rattle.fields.specs.Field.{le_at};
    ghost use Rattle.rules.specs.Layout.{common_header};
    ghost use Rattle.entries.specs.Spot.{spot_of, start_of};
    ghost use Rattle.entries.specs.Layout.{certs_of, children_of, entries_of, LieOn, keys_on};

    // The certificates of a leaf.
    pub fn certs(count: usize) -> Self
        ensures { result ≡ certs_of count }
    {
        Entries {
            header: LEAF_HEADER,
            size: CERT,
            count,
        }
    }

    // The entries of an inner page.
    pub fn children(count: usize) -> Self
        ensures { result ≡ children_of count }
    {
        Entries {
            header: INNER_HEADER,
            size: CHILD,
            count,
        }
    }

    // Those of a page of this kind.
    pub fn of_kind(kind: u16, count: usize) -> Self
        ensures { result ≡ entries_of kind count }
    {
        if kind == LEAF {
            Self::certs(count)
        } else {
            Self::children(count)
        }
    }

    // Those of a page, as its header says.
    pub fn of(page: &[u8]) -> Self
        requires { common_header ≤ length page.now }
        ensures { result ≡ entries_of (le_at page.now 0 2) (le_at page.now 2 2) }
    {
        let kind = fields::get16(page, AT_KIND);
        Self::of_kind(kind, fields::get16(page, AT_COUNT) as usize)
    }

    // Where an entry starts, or the first byte behind the last one.
    pub fn at(self, j: usize) -> usize
        requires { self.header + self.size * j < 2 ^ 64 }
        ensures { result ≡ self.header + self.size * j }
    {
        self.header + self.size * j
    }

    // The key of an entry.
    pub fn key(self, page: &[u8], j: usize) -> u64
        requires lies { LieOn self page.now }
        requires among { j < self.count }
        ensures { result ≡ get_or (keys_on self page.now) j 0 }
    {
        fields::get64(page, self.at(j))
    }

    // How many entries stand before the first one with a key above this one.
    pub fn spot(self, page: &[u8], key: u64) -> usize
        requires { LieOn self page.now }
        ensures { result ≡ spot_of key (keys_on self page.now) }
    {
        for j in 0..self.count {
            if self.key(page, j) > key {
                return j;
            }
        }
        self.count
    }

    // How many entries stand before the first one with a key not below this one.
    pub fn start(self, page: &[u8], low: u64) -> usize
        requires { LieOn self page.now }
        ensures { result ≡ start_of low (keys_on self page.now) }
    {
        if low == 0 {
            return 0;
        }
        self.spot(page, low - 1)
    }
}
