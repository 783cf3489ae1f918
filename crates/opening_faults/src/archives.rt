//! Which of the stores is the archive's.
ghost use Rattle.std.specs.Prelude.{◌≡◌, ◌↔◌, IsTrue, option_map, find, count_by};
ghost use Rattle.opening_faults.specs.Sights.{is_root, NoArchive, TwoArchives};

use crate::sights::Sight;

/// Whether a store says that it is an archive's: its depth is 0.
pub fn is_root(sight: &Sight) -> bool
    ensures { result ≡ is_root sight.now }
{
    match &sight.head {
        Some(head) => head.depth == 0,
        None => false,
    }
}

// How many stores say that they are an archive's.
fn count_roots(sights: &[Sight]) -> usize
    ensures { result ≡ count_by is_root sights.now }
{
    sights.iter().filter(|sight| is_root(sight)).count()
}

/// Whether no store is an archive's.
pub fn has_no_archive(sights: &[Sight]) -> bool
    ensures { IsTrue result ↔ NoArchive sights.now }
{
    count_roots(sights) == 0
}

/// Whether two stores or more are an archive's.
pub fn has_two_archives(sights: &[Sight]) -> bool
    ensures { IsTrue result ↔ TwoArchives sights.now }
{
    2 <= count_roots(sights)
}

/// The first store that is an archive's.
pub fn archive_of(sights: &[Sight]) -> Option<&Sight>
    ensures { option_map (λ s. s.now) result ≡ find is_root sights.now }
{
    sights.iter().find(|sight| is_root(sight))
}
