//! What holds of all reads. The functions do nothing: each has a law as its contract, for a proof that calls it.
ghost use Rattle.hc_question.specs.Laws.{FitsNeverStop, OnePositionAnswers, ToldIsOne};

pub fn told_is_one()
    ensures law { ToldIsOne }
{}

pub fn one_position_answers()
    ensures law { OnePositionAnswers }
{}

pub fn fits_never_stop()
    ensures law { FitsNeverStop }
{}
