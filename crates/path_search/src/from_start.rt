// Document 03, A3: the path from another start.
ghost use Rattle.std.specs.Prelude.{◌≡◌};
ghost use Rattle.lists.specs.Answer.{Answers};
ghost use Rattle.head.specs.Opened.{OpenFacts};
ghost use Rattle.path_search.specs.Search.{least_pair, path_said};
ghost use Rattle.path_search.specs.From.{matches_from, path_found_from};

use crate::PathEntry;
use head::Opening;

// The search over the names that begin with a volume's path, where checks 1 to 6 pass. A volume that can't be shown has an empty one.
#[tactic(auto, using(crate::proofs::Laws::from_none))]
fn path_from_in(file: &[u8], o: Opening, volume: usize, start: &[u8]) -> Option<PathEntry>
    requires { OpenFacts file.now o }
    ensures { result ≡ least_pair (matches_from o file.now volume start.now) o.head.metrics.count }
{
    let path = query::path_in(file, o, volume);
    if path.len() == 0 {
        return None;
    }
    let version = o.version;
    let from = path_hash::carry_on(crate::hash_start(version), start);
    crate::search_in(file, o, path, from)
}

// The least number for which the hash of any such name, with the start in place of the volume's path, matches the stored one, and the
// first such entry.
pub fn find_path_from(file: &[u8], volume: usize, start: &[u8]) -> Option<PathEntry>
    ensures { Answers path_said (path_found_from file.now volume start.now) result }
{
    match head::read_open(file) {
        Ok(o) => path_from_in(file, o, volume, start),
        Err(_) => None,
    }
}
