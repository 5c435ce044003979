mod certainty;
mod meaning;
mod texts;
