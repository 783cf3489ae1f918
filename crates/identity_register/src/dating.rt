//! The moment of the last change of a package.
ghost use Rattle.std.specs.Prelude.{◌≡◌, true};
ghost use Rattle.sqlite.specs.Held.{state};
ghost use Rattle.sheet_types.specs.Texts.{is_moment};
ghost use Rattle.store_sql.specs.Transactions.{Steps};
ghost use Rattle.identity_register.specs.Calls.{Becomes, Dates};

use package_tables::fault::Fault;
use package_tables::fixed::set_last_change;
use sqlite::{Alter, Transaction};

/// Makes a moment that of the last change, in the row of each table in the contents (OGC GeoPackage
/// 1.3, 1.1.3). The package stays as it is.
pub fn date_contents<S: Alter>(tx: &mut Transaction<'_, S>, at: &str) -> Result<(), Fault>
    ensures same_reference { tx.new.conn.ghost_name ≡ tx.old.conn.ghost_name }
    ensures dated { Steps (λ _. Dates at.now) (state S.Store tx.old.conn.now) (state S.Store tx.new.conn.now) result }
    ensures steps { Steps (λ _. Becomes (λ _. is_moment at.now ≡ true) (λ p. p)) (state S.Store tx.old.conn.now)
        (state S.Store tx.new.conn.now) result }
{
    set_last_change(tx, at)
}
