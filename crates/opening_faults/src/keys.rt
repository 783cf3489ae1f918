//! The number and the name of a loan, by which its store is looked up.
ghost use Rattle.std.specs.Prelude.{◌≡◌, ◌∷◌, Some, [], refl, nat_eq, option_map, IfOk, length};
ghost use Rattle.std.specs.Ordering.{nat_cmp};
ghost use Rattle.std.specs.Cmp.{partial_equiv_from_equiv};
ghost use Rattle.std.specs.Cmp.Lexicographic.{pointwise, slice_cmp, nat_list_eq_equiv, nat_list_cmp_total, texts_ties};
ghost use Rattle.std.specs.Cmp.Lexicographic.{texts_po};
ghost use Rattle.sheet_types.specs.Texts.{uuid_text};
ghost use Rattle.opening_faults.specs.Splits.{head_key, split_key};

use crate::sights::StoreHead;
use crate::splits::OpenSplit;
use sheet_types::collections::Text;
use sheet_types::error::OutOfMemory;
use std::alloc::Global;
use std::cmp::Ordering;
use std::marker::Model;
use uuid::Uuid;

/// The number of a split and the text under which it lent a package. To a contract it is the number
/// before the bytes of the text.
#[derive(Drop)]
pub struct LoanKey {
    number: u64,
    name: Text,
}

impl Model for LoanKey {
    ghost use Rattle.std.specs.Prelude.{List, ℕ, ◌∷◌};

    ghost Value = { List ℕ };

    ghost view = { λ k. k.number ∷ k.name };
}

impl LoanKey {
    /// The key that a store has by its head.
    ///
    /// # Errors
    ///
    /// Want of memory.
    pub fn of_head(alloc: Global, head: &StoreHead) -> Result<LoanKey, OutOfMemory>
        ensures { IfOk result (λ key. key ≡ head_key head.now) }
    {
        let name = text_of(alloc, head.uuid)?;
        Ok(LoanKey {
            number: head.loan,
            name,
        })
    }

    /// The key of the loan that a split made; `None` where its number is negative.
    ///
    /// # Errors
    ///
    /// Want of memory.
    pub fn of_split(split: &OpenSplit) -> Result<Option<LoanKey>, OutOfMemory>
        ensures { IfOk result (λ key. key ≡ split_key split.now) }
    {
        let Ok(number) = u64::try_from(split.seq) else {
            return Ok(None);
        };
        let name = split.target.try_clone()?;
        Ok(Some(LoanKey { number, name }))
    }
}

// The text of a UUID in lower case.
fn text_of(alloc: Global, id: Uuid) -> Result<Text, OutOfMemory>
    ensures { IfOk result (λ text. text ≡ uuid_text id) }
{
    let mut buffer = Uuid::encode_buffer();
    let words = String::from_str(alloc, id.hyphenated().encode_lower(&mut buffer))?;
    Ok(Text::from_string(words))
}

impl PartialEq for LoanKey {
    ghost eq = { pointwise nat_eq };

    ghost laws = { partial_equiv_from_equiv nat_list_eq_equiv };

    fn eq(&self, other: &LoanKey) -> bool {
        self.cmp(other).is_eq()
    }
}

impl Eq for LoanKey {
    ghost laws = { nat_list_eq_equiv };
}

impl PartialOrd for LoanKey {
    ghost partial_cmp = { λ x y. Some (slice_cmp nat_cmp x y) };

    ghost laws = { texts_po };

    fn partial_cmp(&self, other: &LoanKey) -> Option<Ordering> {
        Some(self.cmp(other))
    }
}

impl Ord for LoanKey {
    ghost cmp = { slice_cmp nat_cmp };

    ghost total = { nat_list_cmp_total };

    ghost matches_partial_cmp = { λ x y. refl };

    ghost matches_eq = { texts_ties };

    fn cmp(&self, other: &LoanKey) -> Ordering {
        let numbers = self.number.cmp(&other.number);
        let names = self
            .name
            .as_str()
            .as_bytes()
            .cmp(other.name.as_str().as_bytes());
        numbers.then(names)
    }
}
