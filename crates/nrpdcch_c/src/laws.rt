//! What holds of the numbers that stand for statuses, keys, formats, kinds, names, reasons and points in C: laws, as the
//! contracts of functions with nothing to do.
ghost use Rattle.nrpdcch_c.specs.Faults.{NumbersNameReasons};
ghost use Rattle.nrpdcch_c.specs.FormatNumbers.{NumbersNameFormats, NumbersNameKinds};
ghost use Rattle.nrpdcch_c.specs.KeyNumbers.{NumbersNameKeys};
ghost use Rattle.nrpdcch_c.specs.NameNumbers.{NumbersNameFields};
ghost use Rattle.nrpdcch_c.specs.Points.{BytesNamePoints};
ghost use Rattle.nrpdcch_c.specs.Statuses.{NumbersNameOne};

/// Each number is that of one status.
pub fn numbers_name_one()
    ensures { NumbersNameOne }
{}

/// Each number is that of one key of the settings.
pub fn numbers_name_keys()
    ensures { NumbersNameKeys }
{}

/// Each number is that of one format, and a format that is heard is spelled by the number that is told.
pub fn numbers_name_formats()
    ensures { NumbersNameFormats }
{}

/// Each number is that of one field, and a field that is heard is given by the number that is told.
pub fn numbers_name_fields()
    ensures { NumbersNameFields }
{}

/// Each number is that of one kind of set.
pub fn numbers_name_kinds()
    ensures { NumbersNameKinds }
{}

/// Each number is that of one reason against settings.
pub fn numbers_name_reasons()
    ensures { NumbersNameReasons }
{}

/// Each point is that of its byte, and each byte up to 4 is that of its point.
pub fn bytes_name_points()
    ensures { BytesNamePoints }
{}
