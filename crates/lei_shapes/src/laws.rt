//! Laws of the definitions that the contracts cite, each as the contract of an empty function.
ghost use Rattle.std.specs.Prelude.{◌≡◌, ℤ, Some};
ghost use Rattle.lei_shapes.specs.Lists.{ReadsBack, HasTextEach, record_status_text, record_status_of, entity_status_text, entity_status_of, category_text, category_of, validation_text, validation_of, relation_type_text, relation_type_of, relation_status_text, relation_status_of, relation_registration_text, relation_registration_of, exception_category_text, exception_category_of, reason_text, reason_of, event_type_text, event_type_of, event_status_text, event_status_of};
ghost use Rattle.lei_shapes.specs.Moment.{IsMoment, IsShown, read_moment};
ghost use Rattle.lei_shapes.specs.Clock.{moment_text};

/// A clock of UTC shows each moment, and the moment's text reads as that moment.
pub fn moments_are_shown_and_read_back()
    ensures shown { (seconds : ℤ) → IsMoment seconds → IsShown seconds }
    ensures read_back { (seconds : ℤ) → IsMoment seconds
        → read_moment (moment_text seconds) ≡ Some seconds }
{}

/// The text of each value of a list reads as that value.
pub fn value_texts_read_back()
    ensures record_status { ReadsBack record_status_text record_status_of }
    ensures entity_status { ReadsBack entity_status_text entity_status_of }
    ensures category { ReadsBack category_text category_of }
    ensures validation { ReadsBack validation_text validation_of }
    ensures relation_type { ReadsBack relation_type_text relation_type_of }
    ensures relation_status { ReadsBack relation_status_text relation_status_of }
    ensures relation_registration { ReadsBack relation_registration_text relation_registration_of }
    ensures exception_category { ReadsBack exception_category_text exception_category_of }
    ensures reason { ReadsBack reason_text reason_of }
    ensures event_type { ReadsBack event_type_text event_type_of }
    ensures event_status { ReadsBack event_status_text event_status_of }
{}

/// Two values of a list have different texts.
pub fn value_texts_differ()
    ensures record_status { HasTextEach record_status_text }
    ensures entity_status { HasTextEach entity_status_text }
    ensures category { HasTextEach category_text }
    ensures validation { HasTextEach validation_text }
    ensures relation_type { HasTextEach relation_type_text }
    ensures relation_status { HasTextEach relation_status_text }
    ensures relation_registration { HasTextEach relation_registration_text }
    ensures exception_category { HasTextEach exception_category_text }
    ensures reason { HasTextEach reason_text }
    ensures event_type { HasTextEach event_type_text }
    ensures event_status { HasTextEach event_status_text }
{}
