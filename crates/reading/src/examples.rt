//! Worked examples of how numbers, lines and requests are read, and what follows from the definitions.
ghost use Rattle.reading.specs.Examples.{Examples};
ghost use Rattle.reading.specs.Laws.{Laws};

/// Answers nothing; its contract states the worked examples as facts, and what holds of every number and every line.
pub fn worked_examples()
    ensures examples { Examples }
    ensures laws { Laws }
{}
