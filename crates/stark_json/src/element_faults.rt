//! Why lists of elements are not read.
ghost use Rattle.std.specs.Prelude.{◌≡◌, option_map};
ghost use Rattle.stark_json.specs.Elements.{no_element, refused_element, refused_list};

use std::alloc::AllocFailed;

/// Why a list of elements was not read.
#[derive(Clone, Copy, Debug)]
pub enum ElementsFault {
    /// The element at this index is the first that is refused.
    Element { index: usize },
    /// An allocation was refused.
    OutOfMemory,
}

impl ElementsFault {
    /// The fault of lists of which the one at this index has this fault.
    pub(crate) fn in_list(self, list: usize) -> ListsFault
        ensures { refused_list result ≡ option_map (no_element list) (refused_element self) }
    {
        match self {
            ElementsFault::Element { index } => ListsFault::Element { list, index },
            ElementsFault::OutOfMemory => ListsFault::OutOfMemory,
        }
    }
}

impl<T: Drop> From<AllocFailed<T>> for ElementsFault {
    ghost use Rattle.std.specs.Prelude.{◌≡◌};
    ghost use Rattle.stark_json.specs.declared.element_faults.ElementsFault.TheVariants.{OutOfMemory};

    ghost from_gives = { λ _ fault. fault ≡ OutOfMemory };

    fn from(_failed: AllocFailed<T>) -> ElementsFault {
        ElementsFault::OutOfMemory
    }
}

/// Why lists of elements were not read.
#[derive(Clone, Copy, Debug)]
pub enum ListsFault {
    /// The list at this index is no array, and nothing before it is refused.
    List { index: usize },
    /// Of the list at this index, the element at that one is the first that is refused.
    Element { list: usize, index: usize },
    /// An allocation was refused.
    OutOfMemory,
}

impl<T: Drop> From<AllocFailed<T>> for ListsFault {
    ghost use Rattle.std.specs.Prelude.{◌≡◌};
    ghost use Rattle.stark_json.specs.declared.element_faults.ListsFault.TheVariants.{OutOfMemory};

    ghost from_gives = { λ _ fault. fault ≡ OutOfMemory };

    fn from(_failed: AllocFailed<T>) -> ListsFault {
        ListsFault::OutOfMemory
    }
}
