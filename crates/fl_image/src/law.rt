//! Laws on images and on their faults, as the contracts of functions that do nothing.

ghost use Rattle.fl_image.specs.Laws.{OneImage, CutImagesEndEarly, LongerImagesHaveMore, FieldFaultsStay};

/// An image is that of one interface under one plan.
pub fn law_one_image()
    ensures unique { OneImage }
{}

/// An image that was cut short is refused as one that ends early (E82), wherever it was cut: no proper prefix of an image is
/// taken for another image or found wrong in a field.
pub fn law_cut_images_end_early()
    ensures law { CutImagesEndEarly }
{}

/// An image with bytes behind it is refused for the bytes that are left over (E85), whatever they are.
pub fn law_longer_images_have_more()
    ensures law { LongerImagesHaveMore }
{}

/// A fault of a field that stands there (E80, E81, E83) stays the first one, whatever follows the bytes: so a reader that gets
/// an image in pieces may refuse it at once.
pub fn law_field_faults_stay()
    ensures law { FieldFaultsStay }
{}
