//! Laws of loads: each function does nothing, and its contract holds of all trees.
ghost use Rattle.gv_reload.specs.EntriesPass.{EclassesFitLaw, EntriesPassLaw};
ghost use Rattle.gv_reload.specs.EntryEdits.{EditedInLaw, EntriesLaw};
ghost use Rattle.gv_reload.specs.Once.{OnceLaw};

use gv_base::in_order_law;
use gv_version::split_pf_law;

/// No path of an entry, an ebuild or an eclass is read twice in a load.
pub fn once_law()
    ensures { OnceLaw }
{
    in_order_law();
    split_pf_law();
}

/// What an edit of entries can change: packages whose entries are edited, and what is noted of these.
pub fn entries_law()
    ensures { EntriesLaw }
{
    in_order_law();
    split_pf_law();
}

/// Where no entry of a category is edited, no package of it has an edited entry.
pub fn edited_in_law()
    ensures { EditedInLaw }
{}

/// Edited entries don't keep a load from passing, where there is room for what they may name.
pub fn entries_pass_law()
    ensures { EntriesPassLaw }
{
    in_order_law();
    split_pf_law();
}

/// The eclasses that a load read have short paths and small files.
pub fn eclasses_fit_law()
    ensures { EclassesFitLaw }
{}
