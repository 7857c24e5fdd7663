// What a reading of a card finds, in the words of the layout.
ghost use Rattle.ring.specs.Holding.{ReadingMeans, CardMeans};

// Carries the law of readings in its contract: for every card of up to 16,777,216 bytes, and for
// every width of the header and bound on a record's length. It computes nothing.
pub fn reading_law()
    ensures reading { ReadingMeans }
    ensures card { CardMeans }
{}
