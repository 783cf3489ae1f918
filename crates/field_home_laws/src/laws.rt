//! Laws of a file of which a package can hold each record, each the contract of a function that does nothing.
ghost use Rattle.field_home_laws.specs.Free.{FreeListIsFree, FreeFileComesHome};
ghost use Rattle.field_home_laws.specs.Laws.{FitFileIsTaken, FitFileComesHome};

/// A package can take a file of which no record is told, where what is new is new and the limits are kept.
pub fn fit_file_is_taken()
    ensures { FitFileIsTaken }
{}

/// So where neither memory nor the store fails, each request gets a receipt, and the package holds what it is to hold.
pub fn fit_file_comes_home()
    ensures { FitFileComesHome }
{}

/// Requests that are free, told by the requests alone, are free in their four parts.
pub fn free_list_is_free()
    ensures { FreeListIsFree }
{}

/// So a file of which no record is told comes home where its requests are free, or are none.
pub fn free_file_comes_home()
    ensures { FreeFileComesHome }
{}
