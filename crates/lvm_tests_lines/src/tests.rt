mod fixtures;
mod io;
mod parse;
mod show_listing;
mod show_word;
mod words;
