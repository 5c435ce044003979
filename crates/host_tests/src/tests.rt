mod host_files;
