//! What is said of the elements of a list, however it was put together, mapped, filtered or cut.
#![tactic(auto)]

ghost use Rattle.lists.specs.Elements.{AllIsOfEach, AppendsKeepElements, ElementsStandSomewhere, FiltersKeepElements, MapsKeepElements};

/// Two lists that are put together have the elements of both.
pub fn appends_keep_elements<X>()
    ensures { AppendsKeepElements X }
{}

/// What a function makes of a list has what it makes of each element.
pub fn maps_keep_elements<X, Y>()
    ensures { MapsKeepElements X Y }
{}

/// A filter keeps the elements that pass its test.
pub fn filters_keep_elements<X>()
    ensures { FiltersKeepElements X }
{}

/// An element cuts its list, and of two elements one stands behind the other, or they are one.
pub fn elements_stand_somewhere<X>()
    ensures { ElementsStandSomewhere X }
{}

/// What holds of all elements holds of each, and the other way round, however the list was made.
pub fn all_is_of_each<X, Y>()
    ensures { AllIsOfEach X Y }
{}
