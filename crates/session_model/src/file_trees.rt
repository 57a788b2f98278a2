//! Laws of trees of files. The functions here do nothing; their contracts are the laws.
ghost use Rattle.session_model.specs.FileTrees.{ReadingIsOne, ReadingRestsOnFetched};

/// Reading a tree of files comes to one end.
pub fn reading_is_one<Said, Fault>()
    ensures { ReadingIsOne Said Fault }
{}

/// Reading a tree of files rests on no files but those that it asks for.
pub fn reading_rests_on_fetched<Said, Fault>()
    ensures { ReadingRestsOnFetched Said Fault }
{}
