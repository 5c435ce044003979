mod groups;
mod pairs;
mod strides;
