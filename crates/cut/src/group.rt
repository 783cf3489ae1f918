//! Identities that come together, each once.
ghost use Rattle.std.specs.Prelude.{◌≡◌, ◌≤◌, [], ◌∷◌, length, drop, OnOk, IfOk};
ghost use Rattle.sheet_types.specs.Ordered.{IsArranged};
ghost use Rattle.cut.specs.Gathering.{AreSame, IsGroup, Enters, has_member};

use package_tables::fault::Fault;
use std::alloc::Global;
use std::collections::BTreeSet;
use uuid::Uuid;

/// Identities in the order in which they came, each once. To see whether one is there costs about
/// as much as the logarithm of their number.
#[derive(Drop)]
pub(crate) struct Group {
    pub(crate) order: Vec<Uuid>,
    pub(crate) known: BTreeSet<Uuid>,
}

impl Group {
    pub(crate) fn new(alloc: Global) -> Group
        ensures group { IsGroup result }
        ensures empty { result.order.items ≡ [] }
    {
        Group {
            order: Vec::new(alloc),
            known: BTreeSet::new(alloc),
        }
    }

    /// One comes in, if it is not there.
    fn enter(&mut self, id: Uuid) -> Result<(), Fault>
        requires { IsGroup self.old }
        ensures { OnOk result (Enters (id ∷ []) self.old self.new) }
    {
        if self.known.insert(id)? {
            self.order.push(id)?;
        }
        Ok(())
    }

    /// Each comes in that is not there.
    pub(crate) fn enter_all(&mut self, ids: &[Uuid]) -> Result<(), Fault>
        requires { IsGroup self.old }
        ensures { OnOk result (Enters ids.now self.old self.new) }
    {
        for id in ids {
            self.enter(*id)?;
        }
        Ok(())
    }

    /// Whether it is there.
    pub(crate) fn has(&self, id: Uuid) -> bool
        requires { IsGroup self.now }
        ensures { result ≡ has_member self.now id }
    {
        self.known.contains(&id)
    }

    /// Those that came in behind so many.
    pub(crate) fn behind(&self, count: usize) -> &[Uuid]
        requires { count ≤ length self.now.order.items }
        ensures { result.now ≡ drop count self.now.order.items }
    {
        &self.order[count..]
    }

    /// They are sorted.
    pub(crate) fn into_sorted(self, alloc: Global) -> Result<Vec<Uuid>, Fault>
        requires { IsGroup self }
        ensures order { IfOk result (λ ids. IsArranged (λ id. id) ids.items) }
        ensures same { IfOk result (λ ids. AreSame ids.items self.order.items) }
    {
        let Group { known, .. } = self;
        Ok(known.into_iter().collect(alloc)?)
    }
}
