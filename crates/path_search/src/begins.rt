// Whether a name begins with a path.
ghost use Rattle.std.specs.Prelude.{◌≡◌, ◌≤◌, length, take};
ghost use Rattle.path_search.specs.From.{same, begins_with};
ghost use Rattle.path_search.specs.Private.{belongs};

// A unit.
const BACKSLASH: u16 = 92;

// Whether the first bytes of a name are those of a path: eight at a time while eight are left, and then one by one.
fn same_start(path: &[u8], name: &[u8]) -> bool
    requires { length path.now ≤ length name.now }
    ensures { result ≡ same (take (length path.now) name.now) path.now }
{
    let mut i = 0;
    while 8 <= path.len() - i {
        if little_endian::u64_at(path, i) != little_endian::u64_at(name, i) {
            return false;
        }
        i += 8;
    }
    for k in i..path.len() {
        if path[k] != name[k] {
            return false;
        }
    }
    true
}

// Whether a name begins with a path, followed by nothing or by a backslash. That is looked at first: it is one unit.
#[tactic(auto, using(crate::proofs::Same::behinds))]
fn begins_with(path: &[u8], name: &[u8]) -> bool
    ensures { result ≡ begins_with path.now name.now }
{
    let end = path.len();
    if name.len() == end {
        return same_start(path, name);
    }
    if name.len() < 2 {
        return false;
    }
    if name.len() - 2 < end {
        return false;
    }
    if little_endian::u16_at(name, end) != BACKSLASH {
        return false;
    }
    same_start(path, name)
}

// An empty path is no volume's, and every name belongs to it.
pub(crate) fn belongs(path: &[u8], name: &[u8]) -> bool
    ensures { result ≡ belongs path.now name.now }
{
    if path.len() == 0 {
        return true;
    }
    begins_with(path, name)
}
