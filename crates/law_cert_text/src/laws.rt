ghost use Rattle.law_cert_text.specs.Laws.{EndsAsOne, FedReads, OneCert, OneFault, OneLine, OneList, OneText, RefusedIsNone, StaysStopped};

/// A text is the spelling of one certificate or law list at most, and bytes of one line.
pub fn texts_have_one_reading()
    ensures cert { OneCert }
    ensures list { OneList }
    ensures line { OneLine }
{}

/// A reader that has stopped gives each further piece the same answer.
pub fn readers_stay_stopped()
    ensures { StaysStopped }
{}

/// What a reader of pieces has, and what it answers in the end, is that of the joined pieces, however they are cut; and no line
/// that is finished by then is without a reading where it answers `Ok`.
pub fn pieces_are_one_text()
    ensures joined { OneText }
    ensures fed { FedReads }
    ensures ended { EndsAsOne }
{}

/// A text that is refused for a line is the spelling of no certificate, and it is refused for no other line.
pub fn refused_texts_are_none()
    ensures none { RefusedIsNone }
    ensures fault { OneFault }
{}
