// Reading a book into the working memory.
#![tactic(auto)]

pub mod load;
